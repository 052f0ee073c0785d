//! The lines of potentials.
ghost use Rattle.ac_cert_text.specs.Codec.{Shows, Gives, each};
ghost use Rattle.ac_cert_text.specs.Text.{fields_of, potential, pot_line, pot_lines, pots, pots_of};

use crate::cursor::Cursor;
use crate::fault::Fault;
use ac_base::Shape;
use ac_bound::Pots;

static ZEROS: Pots = Pots {
    p: [[[0; 6]; 3]; 7],
};

/// Reads the potentials of the six boundaries.
#[tactic(auto, unfolding(crate::specs::Text::potential, crate::specs::Codec::each, crate::specs::Codec::cons, crate::specs::Codec::absent))]
fn potentials(cursor: &mut Cursor) -> Result<[u32; 6], Fault>
    ensures { Gives result cursor.new.rest.now ((each 6 0 potential).read cursor.old.rest.now) }
{
    let pot_0 = cursor.large(b' ')?;
    let pot_1 = cursor.large(b' ')?;
    let pot_2 = cursor.large(b' ')?;
    let pot_3 = cursor.large(b' ')?;
    let pot_4 = cursor.large(b' ')?;
    let pot_5 = cursor.large(b'\n')?;
    Ok([pot_0, pot_1, pot_2, pot_3, pot_4, pot_5])
}

/// Reads the line of a coded channel and a part.
#[tactic(auto, unfolding(crate::specs::Text::pot_line, crate::specs::Codec::after))]
fn pot_line(cursor: &mut Cursor, c: u8, part: u8) -> Result<[u32; 6], Fault>
    ensures { Gives result cursor.new.rest.now ((pot_line c part).read cursor.old.rest.now) }
{
    cursor.word(b"pot ")?;
    cursor.place(u32::from(c))?;
    cursor.word(b" ")?;
    cursor.place(u32::from(part))?;
    cursor.word(b" ")?;
    potentials(cursor)
}

/// Reads the lines of a channel's parts.
#[tactic(auto, unfolding(crate::specs::Codec::each, crate::specs::Codec::cons, crate::specs::Codec::absent))]
fn parts(cursor: &mut Cursor, c: u8) -> Result<[[u32; 6]; 3], Fault>
    ensures { Gives result cursor.new.rest.now ((each 3 0 (pot_line c)).read cursor.old.rest.now) }
{
    let front = pot_line(cursor, c, 0)?;
    let total = pot_line(cursor, c, 1)?;
    let last = pot_line(cursor, c, 2)?;
    Ok([front, total, last])
}

/// Reads the lines of a channel, which has none where it isn't coded.
#[tactic(auto, unfolding(crate::specs::Text::pot_lines, crate::specs::Codec::slot))]
fn pot_lines(cursor: &mut Cursor, shape: &Shape, c: u8) -> Result<[[u32; 6]; 3], Fault>
    ensures { Gives result cursor.new.rest.now ((pot_lines (fields_of shape.now) c).read cursor.old.rest.now) }
{
    if c < shape.coded() {
        parts(cursor, c)
    } else {
        Ok([[0; 6]; 3])
    }
}

/// Reads the potentials of an offset.
pub fn pots(cursor: &mut Cursor, shape: &Shape) -> Result<Pots, Fault>
    ensures { Shows pots_of result cursor.new.rest.now ((pots (fields_of shape.now)).read cursor.old.rest.now) }
{
    let zeros = &ZEROS;
    let mut pots = *zeros;
    for c in 0..7usize {
        let next = pot_lines(cursor, shape, c as u8)?;
        pots.p[c] = next;
    }
    Ok(pots)
}
