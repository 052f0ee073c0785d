//! The parameters of the bit allocation.
ghost use Rattle.std.specs.Prelude.{◌≡◌, ◌≤◌, None};
ghost use Rattle.ac_rows.specs.Groups.{allocation_of};
ghost use Rattle.ac_sent.specs.Fields.{sent_fields};

use crate::arrays::{flag, number, numbers};
use ac_base::{CPLFLEAK, CPLSLEAK, DBPBCOD, FDCYCOD, FGAINCOD, FLOORCOD, SDCYCOD, SGAINCOD};
use ac_rows::both;
use ac_rows::groups::Allocation;
use ac_sent::Quantised;

/// The parameters of the bit allocation: the first block sends them all (A/52 5.4.3.30 to 5.4.3.46).
#[tactic(auto, unfolding(ac_sent::specs::Fields::sent_fields))]
pub fn allocation(q: &Quantised, first: bool) -> Allocation
    requires { q.now.t ≤ 1023 }
    ensures { result ≡ allocation_of (sent_fields q.now first 0 None) }
{
    let full = usize::from(q.shape.full());
    let coupled = q.shape.couple.is_some();
    let coarse = (q.t / 16) as u8;
    let fine = (q.t % 16) as u8;
    Allocation {
        baie: first,
        sdcycod: number(first, SDCYCOD),
        fdcycod: number(first, FDCYCOD),
        sgaincod: number(first, SGAINCOD),
        dbpbcod: number(first, DBPBCOD),
        floorcod: number(first, FLOORCOD),
        snroffste: first,
        csnroffst: number(first, coarse),
        cplfsnroffst: number(both(first, coupled), fine),
        cplfgaincod: number(both(first, coupled), FGAINCOD),
        fsnroffst: numbers(first, full, fine),
        fgaincod: numbers(first, full, FGAINCOD),
        lfefsnroffst: number(both(first, q.shape.lfe), fine),
        lfefgaincod: number(both(first, q.shape.lfe), FGAINCOD),
        cplleake: flag(coupled, first),
        cplfleak: number(both(first, coupled), CPLFLEAK),
        cplsleak: number(both(first, coupled), CPLSLEAK),
    }
}
