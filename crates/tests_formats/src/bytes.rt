//! What bytes are read as, and that it is written as they are. The drivers call `nvlist::decode`,
//! `pool_slots::survey`, `pool_export::export_labels` and their like.
use crate::{blocks, lists, maps, slots};
use std::process::Abort;
use std::test::Fail;
use words::*;

/// Eight zeros, and the word of a seal.
const WORDS: [u8; 16] = [
    0, 0, 0, 0, 0, 0, 0, 0, 0x11, 0x7a, 0x0c, 0xb1, 0x7a, 0xda, 0x10, 0x02,
];

#[test]
fn fields_are_put_and_read(rt: HostRuntime) {
    let mut block = [9; 20];
    put(&mut block, 1, &[1, 2]);
    put_words(&mut block, 3, &[0x0102, 0x0300]);
    let mut words = [0; 2];
    read_words(&WORDS, &mut words);
    let mut bytes = [0; 16];
    write_words(&[0, 0x0210_da7a_b10c_7a11], &mut bytes);
    let is_front = &block[..6] == [9, 1, 2, 2, 1, 0].as_slice();
    let are_fields = bytes_at::<2>(&block, 1) == [1, 2]
        && words_at::<2>(&block, 3) == [0x0102, 0x0300]
        && word_at(&block, 11) == 0x0300;
    let are_zero = (is_zero(&block[5..12]), is_zero(&block[5..13])) == (true, false);
    let are_words = words == [0, 0x0210_da7a_b10c_7a11] && bytes == WORDS;
    assert!(rt; is_front && are_fields && are_zero && are_words);
}

#[test]
fn blocks_and_maps_are_read_and_written(rt: HostRuntime) -> Result<(), Fail> {
    for (line, wanted) in blocks::CASES {
        let text = blocks::answer(rt.alloc(), line)?;
        assert!(rt; text.as_str() == *wanted, "{line}: {text}");
    }
    for (line, wanted) in maps::CASES {
        let text = maps::answer(rt.alloc(), line)?;
        assert!(rt; text.as_str() == *wanted, "{line}: {text}");
    }
    Ok(())
}

#[test]
fn slots_and_labels_are_read_and_written(rt: HostRuntime) -> Result<(), Fail> {
    for (line, wanted) in slots::CASES {
        let text = slots::answer(rt.alloc(), line)?;
        assert!(rt; text.as_str() == *wanted, "{line}: {text}");
    }
    for (line, wanted) in lists::CASES {
        let text = lists::answer(rt.alloc(), line)?;
        assert!(rt; text.as_str() == *wanted, "{line}: {text}");
    }
    Ok(())
}
