//! Odd phases as powers of five. Modulo 2048 each odd number is a power of five, or the opposite of one, so a sum over odd
//! phases times an odd factor is a sum over neighbours in the list of the cosines of the powers.
ghost use Rattle.std.specs.Prelude.{◌≡◌, ◌<◌, ◌≤◌, ◌^◌, ◌+◌, ◌*◌, ◌%◌, ◌*ℤ◌, ℤ, pos, neg_ℤ, unsigned_abs, slice_index_or};
ghost use Rattle.ac_base.specs.Sigma.{Within, sigma};
ghost use Rattle.ac_base.specs.Cosine.{cosine_at};
ghost use Rattle.ac_mdct.specs.Powers.{log_of, forward_pick, inverse_pick, turned_by, forward_turned, inverse_turned, forward_spun, inverse_spun};
ghost use Rattle.ac_base.specs.Sigma.{Lists};
ghost use Rattle.ac_mdct.specs.Place.{place};

/// 2h + 1, or its opposite, is this power of five modulo 2048.
static LOG: [u16; 512] = [
    0, 163, 1, 202, 326, 213, 495, 164, 412, 407, 365, 142, 2, 489, 379, 392, 376, 203, 281, 146,
    254, 317, 327, 172, 404, 63, 261, 214, 58, 209, 339, 16, 496, 499, 305, 346, 438, 165, 415,
    436, 140, 487, 413, 30, 370, 185, 43, 408, 360, 27, 73, 290, 366, 269, 247, 444, 132, 143, 309,
    102, 426, 417, 3, 32, 480, 323, 97, 490, 38, 117, 335, 196, 380, 55, 461, 430, 226, 393, 219,
    424, 344, 363, 377, 434, 478, 221, 167, 204, 372, 223, 357, 502, 282, 113, 179, 48, 464, 147,
    401, 122, 150, 69, 255, 468, 108, 135, 509, 318, 82, 89, 395, 440, 328, 187, 169, 66, 78, 173,
    87, 476, 100, 303, 405, 390, 138, 321, 355, 64, 448, 483, 193, 266, 262, 21, 175, 228, 348,
    215, 45, 206, 450, 297, 59, 456, 312, 11, 473, 210, 190, 125, 7, 236, 340, 383, 453, 278, 506,
    17, 19, 80, 432, 307, 497, 410, 374, 485, 95, 500, 76, 295, 93, 94, 306, 505, 235, 472, 296,
    347, 265, 354, 302, 77, 439, 508, 68, 463, 501, 166, 362, 225, 195, 96, 416, 131, 289, 42, 486,
    437, 15, 260, 316, 375, 141, 494, 162, 201, 411, 488, 280, 171, 57, 498, 414, 29, 359, 268,
    308, 31, 37, 54, 218, 433, 371, 112, 400, 467, 81, 186, 86, 389, 447, 20, 44, 455, 189, 382,
    18, 409, 75, 504, 264, 507, 361, 130, 14, 493, 279, 28, 36, 111, 85, 454, 74, 129, 35, 128,
    384, 291, 385, 330, 198, 341, 367, 292, 284, 23, 237, 270, 386, 105, 251, 8, 248, 331, 153,
    274, 126, 445, 199, 300, 276, 191, 133, 342, 442, 337, 211, 144, 368, 115, 177, 474, 310, 293,
    287, 52, 12, 103, 285, 158, 242, 313, 427, 24, 232, 155, 457, 418, 238, 397, 119, 60, 4, 271,
    181, 230, 298, 33, 387, 160, 352, 451, 481, 106, 422, 245, 207, 324, 252, 183, 333, 46, 98, 9,
    91, 40, 216, 491, 249, 50, 350, 349, 39, 332, 244, 351, 229, 118, 154, 241, 51, 176, 336, 275,
    273, 250, 22, 197, 127, 84, 492, 263, 381, 446, 466, 217, 267, 56, 200, 315, 41, 194, 462, 301,
    471, 92, 484, 431, 277, 6, 10, 449, 227, 192, 320, 99, 65, 394, 134, 149, 47, 356, 220, 343,
    429, 334, 322, 425, 443, 72, 184, 139, 345, 338, 62, 253, 391, 364, 212, 511, 325, 406, 378,
    145, 403, 208, 304, 435, 369, 26, 246, 101, 479, 116, 460, 423, 477, 222, 178, 121, 107, 88,
    168, 475, 137, 482, 174, 205, 311, 124, 452, 79, 373, 294, 234, 353, 67, 224, 288, 259, 161,
    170, 358, 53, 399, 388, 188, 503, 13, 110, 34, 329, 283, 104, 152, 299, 441, 114, 286, 157,
    231, 396, 180, 159, 421, 182, 90, 49, 243, 240, 272, 83, 465, 314, 470, 5, 319, 148, 428, 71,
    61, 510, 402, 25, 459, 120, 136, 123, 233, 258, 398, 109, 151, 156, 420, 239, 469, 70, 458,
    257, 419, 256,
];

/// The folded value whose odd number has the logarithm b, or b + 256.
static FORWARD: [u8; 256] = [
    255, 253, 243, 193, 71, 229, 4, 22, 112, 50, 3, 17, 87, 202, 116, 70, 224, 29, 108, 30, 103, 5,
    27, 118, 80, 237, 163, 206, 119, 85, 212, 89, 192, 66, 204, 126, 120, 90, 187, 41, 48, 13, 67,
    209, 104, 10, 52, 134, 160, 221, 44, 33, 88, 197, 91, 182, 16, 82, 227, 14, 72, 234, 148, 230,
    128, 130, 140, 190, 56, 154, 251, 233, 143, 205, 124, 110, 40, 53, 139, 185, 31, 98, 147, 225,
    24, 122, 100, 137, 175, 146, 220, 49, 8, 42, 43, 38, 63, 189, 51, 129, 135, 165, 196, 86, 207,
    114, 60, 174, 151, 245, 203, 121, 95, 162, 211, 94, 167, 186, 36, 73, 239, 173, 156, 241, 183,
    21, 107, 25, 127, 125, 115, 65, 199, 101, 132, 150, 240, 178, 131, 145, 215, 74, 244, 198, 96,
    157, 236, 158, 231, 133, 155, 246, 208, 109, 35, 78, 247, 213, 84, 217, 64, 194, 76, 254, 248,
    218, 59, 169, 176, 141, 195, 81, 232, 138, 180, 6, 32, 93, 172, 161, 216, 69, 219, 54, 144,
    210, 99, 142, 200, 106, 20, 102, 0, 2, 12, 62, 184, 26, 123, 105, 15, 77, 252, 238, 168, 181,
    11, 57, 159, 226, 19, 97, 152, 250, 228, 9, 47, 18, 92, 177, 136, 170, 171, 166, 191, 61, 179,
    1, 7, 37, 68, 214, 79, 242, 188, 46, 23, 117, 75, 249, 223, 34, 83, 222, 39, 58, 164, 201, 111,
    45, 28, 113, 55, 149, 235, 153,
];

/// The coefficient whose odd number has the logarithm b, or b + 256.
static INVERSE: [u8; 256] = [
    0, 2, 12, 62, 199, 26, 132, 150, 240, 178, 131, 145, 215, 53, 244, 198, 31, 157, 236, 158, 231,
    133, 155, 246, 208, 18, 92, 49, 247, 213, 43, 217, 63, 194, 51, 254, 248, 218, 68, 169, 176,
    141, 195, 46, 232, 138, 180, 121, 95, 34, 172, 161, 216, 58, 219, 73, 144, 210, 28, 142, 200,
    21, 107, 25, 127, 125, 115, 65, 184, 101, 4, 22, 112, 50, 252, 238, 168, 181, 116, 70, 159,
    226, 108, 30, 152, 250, 228, 118, 80, 109, 35, 177, 136, 170, 171, 166, 191, 66, 179, 126, 120,
    90, 59, 214, 48, 242, 188, 81, 104, 10, 52, 249, 223, 93, 44, 222, 88, 69, 164, 201, 16, 82,
    99, 14, 72, 149, 235, 153, 255, 253, 243, 193, 56, 229, 123, 105, 15, 77, 124, 110, 40, 202,
    11, 57, 224, 98, 19, 97, 24, 122, 100, 9, 47, 237, 163, 206, 8, 42, 212, 38, 192, 61, 204, 1,
    7, 37, 187, 86, 79, 114, 60, 209, 23, 117, 75, 134, 160, 221, 83, 94, 39, 197, 36, 182, 111,
    45, 227, 113, 55, 234, 148, 230, 128, 130, 140, 190, 71, 154, 251, 233, 143, 205, 3, 17, 87,
    74, 139, 185, 96, 29, 147, 225, 103, 5, 27, 137, 175, 146, 220, 78, 119, 85, 84, 89, 64, 189,
    76, 129, 135, 165, 196, 41, 207, 13, 67, 174, 151, 245, 203, 6, 32, 162, 211, 33, 167, 186, 91,
    54, 239, 173, 156, 241, 183, 106, 20, 102,
];

/// Entry `h` of the logarithms.
#[inline]
#[tactic(auto, unfolding(crate::specs::Powers::log_of))]
fn log_entry(h: usize) -> u16
    requires { h < 512 }
    ensures { result ≡ log_of h }
{
    LOG[h]
}

/// The logarithm of 2h + 1, or of its opposite.
#[inline]
#[tactic(auto, using(crate::proofs::Spins::log_below))]
pub fn log(h: usize) -> usize
    requires { h < 512 }
    ensures value { result ≡ log_of h }
    ensures bound { result < 512 }
{
    usize::from(log_entry(h))
}

/// The folded value that stands at logarithm `b`.
#[inline]
#[tactic(auto, unfolding(crate::specs::Powers::forward_pick))]
fn forward_entry(b: usize) -> u8
    requires { b < 256 }
    ensures { result ≡ forward_pick b }
{
    FORWARD[b]
}

/// The coefficient that stands at logarithm `b`.
#[inline]
#[tactic(auto, unfolding(crate::specs::Powers::inverse_pick))]
fn inverse_entry(b: usize) -> u8
    requires { b < 256 }
    ensures { result ≡ inverse_pick b }
{
    INVERSE[b]
}

/// The place that folded value `i` stands for: 0 to 127, then 256 to 383.
#[inline]
#[tactic(auto, unfolding(crate::specs::Place::place))]
pub fn place_of(i: u8) -> usize
    ensures value { result ≡ place i }
    ensures bound { result < 384 }
{
    if i < 128 {
        usize::from(i)
    } else {
        usize::from(i) + 128
    }
}

/// The number, or its opposite half a turn on.
#[inline]
#[tactic(auto, unfolding(crate::specs::Powers::turned_by))]
fn turned(e: usize, u: i32) -> i32
    requires { unsigned_abs u ≤ 2 ^ 24 }
    ensures value { result ≡ turned_by e u }
    ensures bound { unsigned_abs result ≤ 2 ^ 24 }
{
    if e < 256 { u } else { -u }
}

/// The place that folded value `i` stands for, as `place_of` has it.
#[inline]
#[tactic(auto, unfolding(crate::specs::Place::place))]
fn place_at(i: usize) -> usize
    requires { i < 256 }
    ensures value { result ≡ place i }
    ensures bound { result < 384 }
{
    if i < 128 { i } else { i + 128 }
}

/// Folded value `i`, with the sign at its logarithm.
#[inline]
fn forward_signed(u: &[i32; 256], i: usize) -> i32
    requires bound { Within (2 ^ 24) 256 u.now }
    requires place { i < 256 }
    ensures value { result ≡ forward_turned u.now i }
    ensures bound { unsigned_abs result ≤ 2 ^ 24 }
{
    turned(log(place_at(i) + 128), u[i])
}

/// Coefficient `k`, with the sign at its logarithm.
#[inline]
fn inverse_signed(u: &[i32; 256], k: usize) -> i32
    requires bound { Within (2 ^ 24) 256 u.now }
    requires place { k < 256 }
    ensures value { result ≡ inverse_turned u.now k }
    ensures bound { unsigned_abs result ≤ 2 ^ 24 }
{
    turned(log(k), u[k])
}

/// The folded values with their signs, in their own order, so that the compiler makes lanes of both loops.
fn forward_signs(u: &[i32; 256], out: &mut [i32; 256])
    requires { Within (2 ^ 24) 256 u.now }
    ensures value { Lists 256 (forward_turned u.now) out.new }
    ensures bound { Within (2 ^ 24) 256 out.new }
{
    for i in 0..128usize {
        out[i] = forward_signed(u, i);
    }
    for j in 128..256usize {
        out[j] = forward_signed(u, j);
    }
}

/// The coefficients with their signs, in their own order.
fn inverse_signs(u: &[i32; 256], out: &mut [i32; 256])
    requires { Within (2 ^ 24) 256 u.now }
    ensures value { Lists 256 (inverse_turned u.now) out.new }
    ensures bound { Within (2 ^ 24) 256 out.new }
{
    for k in 0..256usize {
        out[k] = inverse_signed(u, k);
    }
}

/// Number `i` of those that have their signs.
#[inline]
fn picked(signed: &[i32; 256], i: u8) -> i32
    requires { Within (2 ^ 24) 256 signed.now }
    ensures value { result ≡ slice_index_or signed.now i (pos 0) }
    ensures bound { unsigned_abs result ≤ 2 ^ 24 }
{
    signed[usize::from(i)]
}

/// The folded values in the order of their logarithms.
pub fn spin_forward(u: &[i32; 256], out: &mut [i32; 256])
    requires { Within (2 ^ 24) 256 u.now }
    ensures value { Lists 256 (forward_spun u.now) out.new }
    ensures bound { Within (2 ^ 24) 256 out.new }
{
    let mut signed = [0i32; 256];
    forward_signs(u, &mut signed);
    for b in 0..256usize {
        out[b] = picked(&signed, forward_entry(b));
    }
}

/// The coefficients in the order of their logarithms.
pub fn spin_inverse(u: &[i32; 256], out: &mut [i32; 256])
    requires { Within (2 ^ 24) 256 u.now }
    ensures value { Lists 256 (inverse_spun u.now) out.new }
    ensures bound { Within (2 ^ 24) 256 out.new }
{
    let mut signed = [0i32; 256];
    inverse_signs(u, &mut signed);
    for b in 0..256usize {
        out[b] = picked(&signed, inverse_entry(b));
    }
}

/// `-t`.
#[inline]
fn opposite(t: i64) -> i64
    requires { unsigned_abs t ≤ 2 ^ 62 }
    ensures value { result ≡ neg_ℤ t }
    ensures bound { unsigned_abs result ≤ 2 ^ 62 }
{
    -t
}

/// Sum `a`, or the one 256 places before.
#[inline]
fn sum_at(sums: &[i64; 256], a: usize) -> i64
    ensures { result ≡ slice_index_or sums.now (a % 256) (pos 0) }
{
    sums[a % 256]
}

/// The sum of products with the cosines of the powers from 5^a on, from the sums at 0 to 255.
#[inline]
pub fn power_sum(sums: &[i64; 256], w: &[i32; 256], a: usize) -> i64
    requires sums { Lists 256 (λ k. sigma 256 (λ i. slice_index_or w.now i (pos 0) *ℤ cosine_at (5 ^ (i + k)))) sums.now }
    requires bound { Within (2 ^ 24) 256 w.now }
    requires from { a < 512 }
    ensures value { result ≡ sigma 256 (λ b. slice_index_or w.now b (pos 0) *ℤ cosine_at (5 ^ (a + b))) }
    ensures bound { unsigned_abs result ≤ 2 ^ 62 }
{
    let sum = sum_at(sums, a);
    if a < 256 { sum } else { opposite(sum) }
}
