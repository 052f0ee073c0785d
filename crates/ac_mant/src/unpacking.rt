//! The codes of a block's mantissas from their bits (A/52 7.3.5).
ghost use Rattle.std.specs.Prelude.{◌≡◌, ◌<◌, ◌≤◌, ◌+◌, ◌-◌, ℕ, List, Bool, ◌++◌, length, take, All, Result, Ok, Err, OnOk, IfErr};
ghost use Rattle.ac_mant.specs.Groups.{closed, coded, pairs, AreCoded, Fill, IsFill, first_width, first_limit, number_width, number_limit, spelled, Refuses};
ghost use Rattle.ac_mant.specs.Unpacking.{nothing, ahead_in, codes_in, read_number, read_from, NumberGives, CodesGive};
ghost use Rattle.ac_mant.specs.declared.coded.MantFault.{MantFault};

use crate::ahead::{own_limit, own_width};
use crate::coded::MantFault;
use crate::held::{Codes, Held, nothing, opened};
use crate::window::{Window, skip};
use ac_bits::BitSource;

/// A number of so many bits below a limit; `place` is that of its mantissa.
#[inline]
fn read_number(window: &mut Window, width: u8, limit: u32, place: u16) -> Result<u16, MantFault>
    requires width { width ≤ 16 }
    ensures { NumberGives result window.new (read_number place width limit window.old) }
{
    let Ok(number) = window.take(u32::from(width)) else {
        return Err(MantFault::OutOfBits);
    };
    if number >= limit {
        return Err(MantFault::BadGroup { place });
    }
    Ok(number as u16)
}

/// The number of a group: none is read where it was sent ahead.
#[inline]
fn group_number(
    window: &mut Window,
    codes: Codes,
    width: u8,
    limit: u32,
    place: u16,
) -> Result<u16, MantFault>
    requires width { width ≤ 16 }
    ensures { NumberGives result window.new
        (read_number place (first_width (length (codes_in codes)) width) (first_limit (length (codes_in codes)) limit) window.old) }
{
    match codes {
        Codes::None => read_number(window, width, limit, place),
        Codes::One(_) => Ok(0),
        Codes::Two(_, _) => Ok(0),
    }
}

/// The number that stands at a mantissa: none is read where it was sent ahead, nor for pointer 0.
#[inline]
fn number_at(window: &mut Window, held: Held, bap: u8, place: u16) -> Result<u16, MantFault>
    requires { bap ≤ 15 }
    ensures { NumberGives result window.new
        (read_number place (number_width (ahead_in held) bap) (number_limit (ahead_in held) bap) window.old) }
{
    match bap {
        0 => Ok(0),
        1 => group_number(window, held.one, 5, 27, place),
        2 => group_number(window, held.two, 7, 125, place),
        4 => group_number(window, held.four, 7, 121, place),
        _ => read_number(window, own_width(bap), own_limit(bap), place),
    }
}

/// The codes, one after the other.
fn read_window(baps: &[u8], out: &mut [u16], window: &mut Window) -> Result<(), MantFault>
    requires pointers { All (λ bap. bap ≤ 15) baps.now }
    requires lengths { length out.old ≡ length baps.now }
    requires most { length baps.now ≤ 65536 }
    ensures { CodesGive result out.new window.new (read_from nothing 0 baps.now window.old) }
{
    let mut held = nothing();
    for i in 0..baps.len() {
        let number = match number_at(window, held, baps[i], i as u16) {
            Ok(number) => number,
            Err(fault) => return Err(fault),
        };
        let (code, next) = opened(held, baps[i], number);
        out[i] = code;
        held = next;
    }
    Ok(())
}

/// The codes, one after the other, and the source behind them.
fn read_codes(baps: &[u8], out: &mut [u16], source: &mut BitSource) -> Result<(), MantFault>
    requires pointers { All (λ bap. bap ≤ 15) baps.now }
    requires lengths { length out.old ≡ length baps.now }
    requires most { length baps.now ≤ 65536 }
    ensures { CodesGive result out.new source.new (read_from nothing 0 baps.now source.old) }
{
    let mut window = Window::of(source);
    match read_window(baps, out, &mut window) {
        Ok(()) => {
            skip(source, source.left() as usize - window.left());
            Ok(())
        }
        Err(fault) => Err(fault),
    }
}

/// Reads the codes of a block's mantissas, whose bit allocation pointers are given, each at most 15, into `out`, which is as long
/// (at most 65,536). The codes that a last group lacks are passed over (A/52 7.3.5).
///
/// # Errors
///
/// `BadGroup` exactly where the first number that stands for no codes comes before any that isn't whole, with the place of its
/// first mantissa; `OutOfBits` exactly where the next number isn't whole before any such one. Nothing is said then of `out` and of
/// what the source has left.
pub fn unpack_block(baps: &[u8], out: &mut [u16], source: &mut BitSource) -> Result<(), MantFault>
    requires pointers { All (λ bap. bap ≤ 15) baps.now }
    requires lengths { length out.old ≡ length baps.now }
    requires most { length baps.now ≤ 65536 }
    ensures found { OnOk result ((fill : Fill) × IsFill fill × (length out.new ≡ length baps.now) × AreCoded (pairs baps.now out.new)
        × (source.old ≡ spelled fill closed (pairs baps.now out.new) ++ source.new)) }
    ensures only { (fill : Fill) (codes : List ℕ) (rest : List Bool) → IsFill fill → length codes ≡ length baps.now
        → AreCoded (pairs baps.now codes) → source.old ≡ spelled fill closed (pairs baps.now codes) ++ rest
        → (result ≡ Ok tt) × (out.new ≡ codes) × (source.new ≡ rest) }
    ensures refused { IfErr result (λ fault. Refuses closed 0 baps.now source.old fault) }
    ensures refuses { (fault : MantFault) → Refuses closed 0 baps.now source.old fault → result ≡ Err fault }
{
    read_codes(baps, out, source)
}
