//! The lines of the strategy words.
ghost use Rattle.std.specs.Prelude.{◌≡◌, length, IfOk};
ghost use Rattle.ac_cert_text.specs.Codec.{Shows, Gives, each, tested};
ghost use Rattle.ac_cert_text.specs.Text.{fields_of, is_word, code, word_line, word_at, words};

use crate::cursor::Cursor;
use crate::fault::Fault;
use ac_base::Shape;
use ac_expo::{Assign, Word, word_at};

/// Reads the codes of a word.
#[tactic(auto, unfolding(crate::specs::Text::code, crate::specs::Codec::each, crate::specs::Codec::cons, crate::specs::Codec::absent))]
fn codes(cursor: &mut Cursor) -> Result<[u8; 6], Fault>
    ensures value { Gives result cursor.new.rest.now ((each 6 0 code).read cursor.old.rest.now) }
    ensures long { IfOk result (λ codes. length codes ≡ 6) }
{
    let code_0 = cursor.small(b' ')?;
    let code_1 = cursor.small(b' ')?;
    let code_2 = cursor.small(b' ')?;
    let code_3 = cursor.small(b' ')?;
    let code_4 = cursor.small(b' ')?;
    let code_5 = cursor.small(b'\n')?;
    Ok([code_0, code_1, code_2, code_3, code_4, code_5])
}

/// Reads the codes of a word, which have to be those of one.
#[tactic(auto, unfolding(crate::specs::Codec::tested))]
fn tested(cursor: &mut Cursor) -> Result<Word, Fault>
    ensures { Gives result cursor.new.rest.now ((tested is_word (each 6 0 code)).read cursor.old.rest.now) }
{
    let here = cursor.rest;
    let codes = codes(cursor)?;
    match Word::new(codes) {
        Some(word) => Ok(word),
        None => {
            cursor.rest = here;
            Err(Fault::Bad)
        }
    }
}

/// Reads the line of a coded channel.
#[tactic(auto, unfolding(crate::specs::Text::word_line, crate::specs::Codec::after))]
fn word_line(cursor: &mut Cursor, c: u8) -> Result<Word, Fault>
    ensures { Gives result cursor.new.rest.now ((word_line c).read cursor.old.rest.now) }
{
    cursor.word(b"word ")?;
    cursor.place(u32::from(c))?;
    cursor.word(b" ")?;
    tested(cursor)
}

/// Reads the word of a channel, which is D15 and reuse where it isn't coded.
#[tactic(auto, unfolding(crate::specs::Text::word_at, crate::specs::Codec::slot))]
fn word(cursor: &mut Cursor, shape: &Shape, c: u8) -> Result<Word, Fault>
    ensures { Gives result cursor.new.rest.now ((word_at (fields_of shape.now) c).read cursor.old.rest.now) }
{
    if c < shape.coded() {
        word_line(cursor, c)
    } else {
        Ok(word_at(0))
    }
}

/// Reads the words.
#[tactic(auto, unfolding(crate::specs::Text::words, crate::specs::Codec::each, crate::specs::Codec::cons, crate::specs::Codec::absent))]
pub fn words(cursor: &mut Cursor, shape: &Shape) -> Result<Assign, Fault>
    ensures { Shows (λ assign. assign.w) result cursor.new.rest.now ((words (fields_of shape.now)).read cursor.old.rest.now) }
{
    let word_0 = word(cursor, shape, 0)?;
    let word_1 = word(cursor, shape, 1)?;
    let word_2 = word(cursor, shape, 2)?;
    let word_3 = word(cursor, shape, 3)?;
    let word_4 = word(cursor, shape, 4)?;
    let word_5 = word(cursor, shape, 5)?;
    let word_6 = word(cursor, shape, 6)?;
    Ok(Assign {
        w: [word_0, word_1, word_2, word_3, word_4, word_5, word_6],
    })
}
