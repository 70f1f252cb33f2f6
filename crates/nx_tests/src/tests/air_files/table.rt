//! The table of the code, as it is written.

use super::super::expect_text;
use nx_fec::{Counting, WriteFault, write_table};

/// The table of M.476 and M.625 in the numbers and names of this profile, some lines of it in each
/// line here.
const TABLE: &[&[u8]] = &[
    b"47 BBBYYYB A -\n72 YBYYBBB B ?\n1D BYBBBYY C :\n53 BBYYBYB D none\n",
    b"56 YBBYBYB E 3\n1B BBYBBYY F none\n35 BYBYBBY G none\n69 BYYBYBB H none\n",
    b"4D BYBBYYB I 8\n17 BBBYBYY J none\n1E YBBBBYY K (\n65 BYBYYBB L )\n",
    b"39 BYYBBBY M .\n59 BYYBBYB N ,\n71 BYYYBBB O 9\n2D BYBBYBY P 0\n",
    b"2E YBBBYBY Q 1\n55 BYBYBYB R 4\n4B BBYBYYB S '\n74 YYBYBBB T 5\n",
    b"4E YBBBYYB U 7\n3C YYBBBBY V =\n27 BBBYYBY W 2\n3A YBYBBBY X /\n",
    b"2B BBYBYBY Y 6\n63 BBYYYBB Z +\n78 YYYBBBB CR CR\n6C YYBBYBB LF LF\n",
    b"5A YBYBBYB LTRS LTRS\n36 YBBYBBY FIGS FIGS\n5C YYBBBYB SPACE SPACE\n6A YBYBYBB BLANK BLANK\n",
    b"0F BBBBYYY P1 P1\n33 BBYYBBY BETA BETA\n66 YBBYYBB P2 P2\n",
];

#[test]
fn table_is_written(rt: HostRuntime) {
    let mut wanted = Vec::new(rt.alloc());
    for lines in TABLE {
        wanted.extend_from_slice(lines).expect(&rt, "memory");
    }
    let mut writer = Counting::new(Vec::new(rt.alloc()));
    assert_eq!(rt; write_table(&mut writer), Ok(()));
    let written = writer.into_inner();
    assert_eq!(rt; written.iter().filter(|byte| **byte == b'\n').count(), 35);
    expect_text(&rt, "the table", &written, &wanted);
}

#[test]
fn table_in_a_full_writer(rt: HostRuntime) {
    let mut space = [0; 10];
    let mut writer = Counting::new(&mut space[..]);
    assert_eq!(rt; write_table(&mut writer), Err(WriteFault { written: 10 }));
    assert_eq!(rt; writer.failures(), 1);
    expect_text(&rt, "the first bytes", &space, b"47 BBBYYYB");
}
