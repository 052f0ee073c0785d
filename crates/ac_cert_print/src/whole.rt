//! Certificates printed.
ghost use Rattle.std.specs.Prelude.{◌+◌, ◌≤◌, length, OnOk, OnErr};
ghost use Rattle.ac_io.specs.Outside.{Rose, Adds, AddsFront};
ghost use Rattle.ac_cert_text.specs.Text.{text, plain_of};
ghost use Rattle.ac_cert_print.specs.Pages.{page, Wrote};

use crate::head::{claim, shape_line, top};
use crate::levels::over;
use crate::pen::Pen;
use crate::raws::raws;
use crate::words::words;
use ac_claim::Cert;
use ac_io::{Failed, Sink};

/// Writes the text of a certificate.
fn lines<O: Sink>(pen: &mut Pen, out: &mut O, cert: &Cert)
    requires { length cert.now.trees ≤ cert.now.top + 1 }
    ensures { Wrote (text.spell (plain_of cert.now)) (page O.held O.faults pen.old out.old) (page O.held O.faults pen.new out.new) }
{
    pen.word(out, b"ac3cert 1\n");
    shape_line(pen, out, &cert.shape);
    raws(pen, out, &cert.shape, &cert.raw);
    claim(pen, out, cert.offset, cert.upper);
    words(pen, out, &cert.shape, &cert.assign.w);
    top(pen, out, cert.top);
    over(
        pen,
        out,
        &cert.shape,
        cert.top,
        &cert.over,
        cert.trees.as_slice(),
    );
}

/// Writes the text that stands for a certificate, which has at most an offset for each from its top down to 0. No memory is taken.
/// The text of a tree with an empty split, or with a bracket more than 42 open at once, is none that `ac_cert_text::parse` reads.
///
/// # Errors
///
/// `Failed` where a write failed. The sink took a front of the text.
pub fn print<O: Sink>(cert: &Cert, out: &mut O) -> Result<(), Failed>
    requires offsets { length cert.now.trees ≤ cert.now.top + 1 }
    ensures adds { OnOk result (Adds (O.held out.old) (O.held out.new) (text.spell (plain_of cert.now))) }
    ensures front { OnErr result (AddsFront (O.held out.old) (O.held out.new) (text.spell (plain_of cert.now))) }
    ensures rose { OnErr result (Rose (O.faults out.old) (O.faults out.new)) }
    ensures never_falls { O.faults out.old ≤ O.faults out.new }
{
    let mut pen = Pen::new();
    lines(&mut pen, out, cert);
    pen.flush(out);
    if pen.failed {
        return Err(Failed);
    }
    Ok(())
}
