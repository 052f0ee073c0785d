use super::*;

#[test]
fn head_of_stereo_and_of_5_1(rt: HostRuntime) {
    let mut head = [7; 68];
    wav_head(2, false, 1, &mut head);
    assert!(rt;
        head == [
            82, 73, 70, 70, 255, 255, 255, 255, 87, 65, 86, 69, 102, 109, 116, 32, 40, 0, 0, 0,
            254, 255, 2, 0, 68, 172, 0, 0, 152, 9, 4, 0, 6, 0, 24, 0, 22, 0, 24, 0, 3, 0, 0, 0, 1,
            0, 0, 0, 0, 0, 16, 0, 128, 0, 0, 170, 0, 56, 155, 113, 100, 97, 116, 97, 255, 255, 255,
            255,
        ]
    );
    wav_head(7, true, 0, &mut head);
    assert!(rt; head[22..34] == [6, 0, 128, 187, 0, 0, 0, 47, 13, 0, 18, 0]);
    assert!(rt; head[40..44] == [63, 0, 0, 0]);
}

#[test]
fn samples_in_wav_order(rt: HostRuntime) {
    let mut pcm = Pcm { s: [[0; 1536]; 6] };
    for (c, sample) in [-8388608, 1, 8388607, -1, 4, 2].iter().enumerate() {
        if c < 6 {
            pcm.s[c][1535] = *sample;
        }
    }
    let mut out = [7; 27648];
    assert_eq!(rt; wav_samples(7, true, &pcm, &mut out), 27648);
    assert!(rt;
        out[27630..]
            == [
                0, 0, 128, 255, 255, 127, 1, 0, 0, 2, 0, 0, 255, 255, 255, 4, 0, 0
            ]
    );
    assert!(rt; out[0] == 0 && out[27629] == 0);
    let mut mono = [7; 27648];
    assert_eq!(rt; wav_samples(1, false, &pcm, &mut mono), 4608);
    assert!(rt; mono[4605..4610] == [0, 0, 128, 7, 7]);
}
