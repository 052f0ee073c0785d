//! Texts read.
ghost use Rattle.ac_cert_text.specs.Codec.{Shows};
ghost use Rattle.ac_cert_text.specs.Text.{text, plain_of, read_whole, Answers};

use crate::cursor::Cursor;
use crate::fault::Fault;
use crate::head::{claim, shape_line, top};
use crate::levels::over;
use crate::raws::raws;
use crate::words::words;
use ac_claim::{Cert, Levels, No};
use std::alloc::Global;

/// Why a text gives no certificate.
#[derive(Clone, Copy, Debug, PartialEq, Eq)]
pub enum ParseFault {
    /// It isn't in the grammar.
    No(No),
    /// Memory was wanting.
    NoMemory,
}

/// Reads a certificate.
#[tactic(auto, unfolding(crate::specs::Text::text, crate::specs::Codec::after, crate::specs::Codec::pair))]
fn cert(alloc: Global, cursor: &mut Cursor) -> Result<Cert, Fault>
    ensures { Shows plain_of result cursor.new.rest.now (text.read cursor.old.rest.now) }
{
    cursor.word(b"ac3cert 1\n")?;
    let shape = shape_line(cursor)?;
    let raw = raws(cursor, &shape)?;
    let (offset, upper) = claim(cursor)?;
    let assign = words(cursor, &shape)?;
    let top = top(cursor)?;
    let (over, levels) = over(alloc, cursor, &shape, top)?;
    Ok(Cert {
        shape,
        raw,
        offset,
        upper,
        assign,
        top,
        over,
        trees: Levels::from_vec(levels),
    })
}

/// Reads a certificate, behind which nothing stands.
fn whole(alloc: Global, cursor: &mut Cursor) -> Result<Cert, Fault>
    ensures { Shows plain_of result cursor.new.rest.now (read_whole cursor.old.rest.now) }
{
    let cert = cert(alloc, cursor)?;
    if cursor.rest.is_empty() {
        Ok(cert)
    } else {
        Err(Fault::Bad)
    }
}

/// The number of the line that the rest of a text begins in, counted from 1.
fn line_of(text: &[u8], rest: &[u8]) -> u32 {
    let mut line = 1u32;
    let read = text.len().saturating_sub(rest.len());
    for byte in &text[..read] {
        if *byte == b'\n' {
            line = line.saturating_add(1);
        }
    }
    line
}

/// The certificate that a text stands for: with 0 in each number that the text doesn't state, and the codes 1 0 0 0 0 0 in each word that
/// it doesn't.
///
/// # Errors
///
/// `No` where the text isn't in the grammar, as `BadText` or `Deep`; `NoMemory` where memory was wanting.
pub fn parse(alloc: Global, text: &[u8]) -> Result<Cert, ParseFault>
    ensures exact { Answers result (read_whole text.now) }
{
    let mut cursor = Cursor { rest: text };
    match whole(alloc, &mut cursor) {
        Ok(cert) => Ok(cert),
        Err(Fault::NoMemory) => Err(ParseFault::NoMemory),
        Err(Fault::Deep) => Err(ParseFault::No(No::Deep {
            line: line_of(text, cursor.rest),
        })),
        Err(Fault::Bad) => Err(ParseFault::No(No::BadText {
            line: line_of(text, cursor.rest),
        })),
    }
}
