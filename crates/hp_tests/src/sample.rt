//! The sample script, compared with what a separate program in Python made of its rule.

use hp_sample::sample_text;
use std::test::Fail;

/// The first states of number 0 are 12345, 1406932606, 654583775, 1449466924, 229283573, 1109335178, 1051550459,
/// 1293799192, 794471793, 551188310, with the bits 0 0 0 1 0 1 1 1 0 0.
#[test]
fn first_graph(rt: HostRuntime) -> Result<(), Fail> {
    let text = sample_text(rt.alloc(), 0)?;
    let head =
        b"field 32003\nlet G1 = graphic 5 [1-5 2-4 2-5 3-4]\npoincare G1\nnbc G1\nfree G1\nlet G2 = graphic 5 [";
    assert!(rt; text.as_slice().starts_with(head));
    Ok(())
}

/// The lengths, and the bytes read as digits to the base 31 modulo 1000003.
#[test]
fn lengths_and_digests(rt: HostRuntime) -> Result<(), Fail> {
    for (k, length, digest) in [(0, 2438, 255998), (1, 2574, 680482), (9999, 2462, 902226)] {
        let text = sample_text(rt.alloc(), k)?;
        let mut h: u64 = 0;
        for b in text.iter() {
            h = (h % 1_000_003 * 31 + *b as u64) % 1_000_003;
        }
        assert_eq!(rt; (text.len(), h), (length, digest), "{k}");
    }
    Ok(())
}
