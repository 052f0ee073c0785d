ghost use Rattle.std.specs.Prelude.{◌↔◌, ◌<◌, Some, None, ◌≡◌, ◌≢◌, ℕ, ◌+◌, ◌*◌, ◌/◌, ◌≤◌, List, length, take, drop};
ghost use Rattle.ac_bits.specs.Bits.{bits_of};
ghost use Rattle.ac_crc.specs.Remainder.{IsRemainder};
ghost use Rattle.ac_base.specs.Sizes.{front_room};
ghost use Rattle.ac_sent.specs.Padding.{aux_bits, aux_room, left_over, skip, skip_bits, skipl_of, skipped, to_skip};
ghost use Rattle.ac_record.specs.Laws.{AreBytes};
ghost use Rattle.ac_sent.specs.Asked.{IsQuantised, IsSizeCode};
ghost use Rattle.ac_sent.specs.Packed.{IsPacked};
ghost use Rattle.ac_sent.specs.Values.{Quantised};
ghost use Rattle.ac_frame.specs.Mono.{IsSilentMono, spelling};
ghost use Rattle.ac_frame.specs.Plain.{total_bits, IsSized, IsPlain};

/// For one channel without LFE or coupling, SNR offset 0, D45 in block 0 and reuse behind it, the frame that is packed is the plain
/// frame, and a plain frame of these exponents is the one that is packed. And what is true of every plain frame: its size, the
/// remainders of both CRC parts (A/52 7.10.1), that crc2 is never the syncword, and that there is one plain frame of given exponents.
pub fn plain_law()
    ensures packed { (q : Quantised) (frame : List ℕ) → IsQuantised q → IsSilentMono q → (p : IsPacked q frame)
        → IsPlain q.shape.fscod p.frmsizecod q.shape.words q.shape.bw (spelling q).first (spelling q).groups frame }
    ensures packs { (q : Quantised) (frmsizecod : ℕ) (frame : List ℕ) → IsQuantised q → IsSilentMono q
        → IsSizeCode q.shape.fscod q.shape.words frmsizecod
        → IsPlain q.shape.fscod frmsizecod q.shape.words q.shape.bw (spelling q).first (spelling q).groups frame → IsPacked q frame }
    ensures sized { (q : Quantised) → IsSilentMono q → IsSized q.shape.words (spelling q).groups }
    ensures size { (fscod frmsizecod words bw first : ℕ) (groups frame : List ℕ) → IsSized words groups
        → IsPlain fscod frmsizecod words bw first groups frame → length frame ≡ 2 * words }
    ensures first_part { (fscod frmsizecod words bw first : ℕ) (groups frame : List ℕ)
        → IsPlain fscod frmsizecod words bw first groups frame
        → IsRemainder (bits_of (drop 2 (take (2 * (words / 2 + words / 8)) frame))) 0 }
    ensures both_parts { (fscod frmsizecod words bw first : ℕ) (groups frame : List ℕ)
        → IsPlain fscod frmsizecod words bw first groups frame → IsRemainder (bits_of (drop 2 frame)) 0 }
    ensures no_sync { (fscod frmsizecod words bw first : ℕ) (groups frame : List ℕ)
        (p : IsPlain fscod frmsizecod words bw first groups frame) → p.crc2 ≢ 0x0B77 }
    ensures one { (fscod frmsizecod words bw first : ℕ) (groups f g : List ℕ) → IsSized words groups → AreBytes f
        → AreBytes g → IsPlain fscod frmsizecod words bw first groups f
        → IsPlain fscod frmsizecod words bw first groups g → f ≡ g }
{}

/// What the padding of a plain frame keeps: skipl is the least that does, a block is filled only
/// once those behind it are full, skip fields and aux bits take all that is left, the aux bits
/// have room in the second CRC part, and blocks 0 and 1 end within the first.
pub fn padding_law()
    ensures none { (n : ℕ) → (skipl_of n ≡ None) ↔ (n ≡ 0) }
    ensures least { (n k : ℕ) → n ≤ 4097 → skipl_of n ≡ Some k → (n ≤ 9 + 8 * k) × ((j : ℕ) → n ≤ 9 + 8 * j → k ≤ j) }
    ensures full { (n : ℕ) → 4097 ≤ n → skipl_of n ≡ Some 511 }
    ensures order { (x block : ℕ) → block < 5 → skip x block ≢ None → skip x (block + 1) ≡ Some 511 }
    ensures sum { (words : ℕ) (groups : List ℕ) → IsSized words groups
        → let total = total_bits (length groups) in skipped (to_skip words total 0) + aux_bits words total 0
        ≡ left_over words total }
    ensures aux { (words : ℕ) (groups : List ℕ) → IsSized words groups → aux_bits words (total_bits (length groups)) 0 ≤ aux_room words 0 }
    ensures front { (words : ℕ) (groups : List ℕ) → IsSized words groups
        → 65 + 35 + (12 + 7 * length groups) + 10 + skip_bits (skip (to_skip words (total_bits (length groups)) 0) 1) ≤ front_room words }
{}
