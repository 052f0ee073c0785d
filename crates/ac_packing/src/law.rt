//! What is true of every frame that is packed.
ghost use Rattle.std.specs.Prelude.{◌≡◌, ◌≢◌, ◌*◌, ℕ, List, length};
ghost use Rattle.ac_record.specs.Laws.{AreBytes};
ghost use Rattle.ac_sent.specs.Values.{Quantised};
ghost use Rattle.ac_sent.specs.Asked.{IsQuantised};
ghost use Rattle.ac_sent.specs.Packed.{IsPacked};

/// A frame of values has its size, its crc2 is never the syncword (A/52 5.4.5.1), and there is one frame for them.
pub fn pack_law()
    ensures size { (q : Quantised) (frame : List ℕ) → IsPacked q frame → length frame ≡ 2 * q.shape.words }
    ensures no_sync { (q : Quantised) (frame : List ℕ) (p : IsPacked q frame) → p.crc2 ≢ 0x0B77 }
    ensures one { (q : Quantised) (f g : List ℕ) → IsQuantised q → AreBytes f → AreBytes g → IsPacked q f → IsPacked q g → f ≡ g }
{}
