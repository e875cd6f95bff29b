//! Words, numbers and picks.
use ls_select::{Draws, Ties, pick};
use std::alloc::Global;
use std::test::*;

// The first words of a seed and a stream, as a script gives them that has the definition of PCG XSL RR 128/64 alone; the
// first row is PCG's own reference.
struct Row {
    seed: u64,
    stream: u128,
    words: [u64; 3],
}

static ROWS: [Row; 7] = [
    Row {
        seed: 42,
        stream: 54,
        words: [
            0x86b1_da1d_7206_2b68,
            0x1304_aa46_c985_3d39,
            0xa367_0e9e_0dd5_0358,
        ],
    },
    Row {
        seed: 0,
        stream: 0,
        words: [
            0xd4fe_b4e5_a4bc_fe09,
            0xe85a_7fe0_71b0_26e6,
            0x3a5b_9037_fe92_8c11,
        ],
    },
    Row {
        seed: 0,
        stream: 1,
        words: [
            0xacdb_f879_b3c7_3375,
            0x7ea7_54d0_74e8_d88f,
            0xf8fc_7aec_8ae6_245a,
        ],
    },
    Row {
        seed: 1,
        stream: 0,
        words: [
            0x7156_4ba1_9208_63f1,
            0x06f7_10df_f512_6daf,
            0xaf59_5b98_7d60_ea49,
        ],
    },
    Row {
        seed: 1,
        stream: 1,
        words: [
            0xd469_2f84_5d3a_3706,
            0xbb0f_09b0_eeba_b6ff,
            0xe26a_c904_ad28_3c09,
        ],
    },
    Row {
        seed: u64::MAX,
        stream: 0,
        words: [
            0xfb5f_d3d9_b3d0_cca6,
            0xe158_2e00_eb96_6e21,
            0xdc8b_3dd5_0d82_0338,
        ],
    },
    Row {
        seed: u64::MAX,
        stream: 1,
        words: [
            0x7e86_b6c3_c5dd_ff50,
            0x6dc9_e127_832f_bcdc,
            0xa267_37f9_aa61_cbf3,
        ],
    },
];

// A number below this is the word itself.
const ALL_WORDS: u128 = 0x1_0000_0000_0000_0000;

#[test]
fn words_are_those_of_the_definition(rt: HostRuntime) -> Result<(), Fail> {
    for row in &ROWS {
        let mut draws = Draws::new(row.seed, row.stream);
        for word in row.words {
            assert_eq!(rt; draws.below(ALL_WORDS), word, "{} {}", row.seed, row.stream);
        }
    }
    Ok(())
}

// Each takes one word, also where there is no choice: of the words of seed 5 and stream 3, `floor(word * n / 2^64)`.
#[test]
fn numbers_are_shares_of_words(rt: HostRuntime) -> Result<(), Fail> {
    let mut draws = Draws::new(5, 3);
    let rows = [(6, 1), (1, 0), (6, 0), (10, 5), (10, 5), (1, 0), (10, 2)];
    for (n, want) in rows {
        assert_eq!(rt; draws.below(n), want, "below {n}");
    }
    Ok(())
}

// The chosen one of these.
fn picked(alloc: Global, numbers: &[u64], draws: &mut Draws) -> Result<Option<u64>, Fail> {
    let mut ties = Ties::new(alloc);
    for number in numbers {
        if ties.push(*number).is_err() {
            return Err(Fail::from("no memory"));
        }
    }
    Ok(pick(&ties, draws))
}

// Nothing is drawn where there is no choice, so the third pick has the first word of seed 5 and stream 3.
#[test]
fn a_pick_draws_where_there_is_a_choice(rt: HostRuntime) -> Result<(), Fail> {
    let alloc = rt.alloc();
    let mut draws = Draws::new(5, 3);
    assert_eq!(rt; picked(alloc, &[], &mut draws)?, None);
    assert_eq!(rt; picked(alloc, &[7], &mut draws)?, Some(7));
    assert_eq!(rt; picked(alloc, &[3, 5, 9], &mut draws)?, Some(3));
    assert_eq!(rt; picked(alloc, &[2, 4], &mut draws)?, Some(4));
    assert_eq!(rt; picked(alloc, &[0, 6, 7, 8, 9], &mut draws)?, Some(0));
    Ok(())
}
