//! What several writes write.

use crate::tests::expect_text;
use nx_fec::{Counting, WriteFault, write_bits, write_on};

#[test]
fn writes_add_up(rt: HostRuntime) {
    let mut space = [0; 4];
    assert_eq!(rt;
        write_on(&mut Counting::new(&mut space[..]), 3, b"AB"),
        Ok(5)
    );
    let fault = write_on(&mut Counting::new(&mut space[..]), 3, b"ABCDE").err();
    assert_eq!(rt; fault, Some(WriteFault { written: 7 }));
    expect_text(&rt, "written", &space, b"ABCD");
    let mut writer = Counting::new(Vec::new(rt.alloc()));
    write_bits(&mut writer, &[true; 491])
        .ok()
        .expect(&rt, "written");
    assert_eq!(rt; writer.into_inner().len(), 493 + 4);
}
