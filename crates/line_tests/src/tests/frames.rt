//! Numbered lines, written and read back.
use byte_text::{Line, has_byte};
use marlin_frame::{
    HELLO_NUMBER, Read, fails, frame, hello_frame, line_number, n_parameter, read_frame, text,
    wire_number,
};
use std::process::Abort;

// Number, command and line, computed by a program of its own from the rule of the protocol.
const ROWS: [(u32, &str, &str); 64] = [
    (0, "G28", "N0 G28*19"),
    (525_556_440, "G28", "N525556440 G28*23"),
    (1, "G1 X10", "N1 G1 X10*80"),
    (467_459_830, "G1 X10", "N467459830 G1 X10*87"),
    (2, "M105", "N2 M105*37"),
    (503_553_142, "M105", "N503553142 M105*37"),
    (9, "M117 hello there", "N9 M117 hello there*33"),
    (
        177_139_325,
        "M117 hello there",
        "N177139325 M117 hello there*38",
    ),
    (
        10,
        "G1 X10.5 Y-3.25 E.02 F1800",
        "N10 G1 X10.5 Y-3.25 E.02 F1800*19",
    ),
    (
        118_537_892,
        "G1 X10.5 Y-3.25 E.02 F1800",
        "N118537892 G1 X10.5 Y-3.25 E.02 F1800*40",
    ),
    (99, "M104 S200", "N99 M104 S200*87"),
    (1_639_266_885, "M104 S200", "N1639266885 M104 S200*93"),
    (100, "T0", "N100 T0*59"),
    (226_035_457, "T0", "N226035457 T0*60"),
    (
        65_535,
        "aaaaaaaaaaaaaaaaaaaaaaaaaaaaaaaaaaaaaaaaaaaaaaaaaaaaaaaaaaaaaaaaaaaaaaaaaaaaaaa",
        "N65535 aaaaaaaaaaaaaaaaaaaaaaaaaaaaaaaaaaaaaaaaaaaaaaaaaaaaaaaaaaaaaaaaaaaaaaaaaaaaaaa*63",
    ),
    (
        1_718_255_371,
        "aaaaaaaaaaaaaaaaaaaaaaaaaaaaaaaaaaaaaaaaaaaaaaaaaaaaaaaaaaaaaaaaaaaaaaaaaaaaaaa",
        "N1718255371 aaaaaaaaaaaaaaaaaaaaaaaaaaaaaaaaaaaaaaaaaaaaaaaaaaaaaaaaaaaaaaaaaaaaaaaaaaaaaaa*7",
    ),
    (
        1_999_999_999,
        "6M X12-S--1Y53S9Z9-.4433F7X.SY3 40830M51GE62EZZF 26 24 .65X58",
        "N1999999999 6M X12-S--1Y53S9Z9-.4433F7X.SY3 40830M51GE62EZZF 26 24 .65X58*75",
    ),
    (
        977_468_451,
        "6M X12-S--1Y53S9Z9-.4433F7X.SY3 40830M51GE62EZZF 26 24 .65X58",
        "N977468451 6M X12-S--1Y53S9Z9-.4433F7X.SY3 40830M51GE62EZZF 26 24 .65X58*112",
    ),
    (2_000_000_000, "7", "N2000000000 7*91"),
    (1_888_610_229, "7", "N1888610229 7*94"),
    (0, "- M9F99X5-0.7Y75.", "N0 - M9F99X5-0.7Y75.*125"),
    (
        1_969_763_908,
        "- M9F99X5-0.7Y75.",
        "N1969763908 - M9F99X5-0.7Y75.*73",
    ),
    (
        1,
        "4.Y010E208. EF3F9 8F41G6Z6359-50YG4  M-82Z",
        "N1 4.Y010E208. EF3F9 8F41G6Z6359-50YG4  M-82Z*88",
    ),
    (
        49_159_833,
        "4.Y010E208. EF3F9 8F41G6Z6359-50YG4  M-82Z",
        "N49159833 4.Y010E208. EF3F9 8F41G6Z6359-50YG4  M-82Z*97",
    ),
    (
        2,
        "Z6SXYZ0.MM-M 6G9MZ0E--8F8EX76020MG3891G9631-X0Y3-47",
        "N2 Z6SXYZ0.MM-M 6G9MZ0E--8F8EX76020MG3891G9631-X0Y3-47*102",
    ),
    (
        603_199_958,
        "Z6SXYZ0.MM-M 6G9MZ0E--8F8EX76020MG3891G9631-X0Y3-47",
        "N603199958 Z6SXYZ0.MM-M 6G9MZ0E--8F8EX76020MG3891G9631-X0Y3-47*100",
    ),
    (9, "Y2X7 8F GG19G6-E-995X", "N9 Y2X7 8F GG19G6-E-995X*124"),
    (
        990_716_697,
        "Y2X7 8F GG19G6-E-995X",
        "N990716697 Y2X7 8F GG19G6-E-995X*125",
    ),
    (
        10,
        "7E619S9-Z1460F93 E S11EF8165Z2.S",
        "N10 7E619S9-Z1460F93 E S11EF8165Z2.S*123",
    ),
    (
        706_793_005,
        "7E619S9-Z1460F93 E S11EF8165Z2.S",
        "N706793005 7E619S9-Z1460F93 E S11EF8165Z2.S*67",
    ),
    (
        99,
        "SSM2262E4EMX-5MG7E.Y6X1--655EE-YXZ96FG.7X3.97  E-46.9",
        "N99 SSM2262E4EMX-5MG7E.Y6X1--655EE-YXZ96FG.7X3.97  E-46.9*47",
    ),
    (
        64_473_999,
        "SSM2262E4EMX-5MG7E.Y6X1--655EE-YXZ96FG.7X3.97  E-46.9",
        "N64473999 SSM2262E4EMX-5MG7E.Y6X1--655EE-YXZ96FG.7X3.97  E-46.9*36",
    ),
    (
        100,
        "6 37MYFF16X.YZM1G6-2EF90515F1M24 X3MY198773 Y4GEM8F-F",
        "N100 6 37MYFF16X.YZM1G6-2EF90515F1M24 X3MY198773 Y4GEM8F-F*117",
    ),
    (
        1_428_836_761,
        "6 37MYFF16X.YZM1G6-2EF90515F1M24 X3MY198773 Y4GEM8F-F",
        "N1428836761 6 37MYFF16X.YZM1G6-2EF90515F1M24 X3MY198773 Y4GEM8F-F*70",
    ),
    (
        65_535,
        "7EX XYX7898M9.308227E79 25Z6 GE5Y8M-",
        "N65535 7EX XYX7898M9.308227E79 25Z6 GE5Y8M-*67",
    ),
    (
        235_349_980,
        "7EX XYX7898M9.308227E79 25Z6 GE5Y8M-",
        "N235349980 7EX XYX7898M9.308227E79 25Z6 GE5Y8M-*72",
    ),
    (1_999_999_999, "9.97G", "N1999999999 9.97G*56"),
    (242_661_453, "9.97G", "N242661453 9.97G*7"),
    (
        2_000_000_000,
        "39253--73061YX8Y87",
        "N2000000000 39253--73061YX8Y87*14",
    ),
    (
        1_446_114_907,
        "39253--73061YX8Y87",
        "N1446114907 39253--73061YX8Y87*1",
    ),
    (
        0,
        "832SSM07S775X6FGG06X138 X6FZ1F6985.2G7-206 YZ41ZG6EZ.7M18FZ538X4X9",
        "N0 832SSM07S775X6FGG06X138 X6FZ1F6985.2G7-206 YZ41ZG6EZ.7M18FZ538X4X9*53",
    ),
    (
        1_448_472_380,
        "832SSM07S775X6FGG06X138 X6FZ1F6985.2G7-206 YZ41ZG6EZ.7M18FZ538X4X9",
        "N1448472380 832SSM07S775X6FGG06X138 X6FZ1F6985.2G7-206 YZ41ZG6EZ.7M18FZ538X4X9*6",
    ),
    (
        1,
        "883YG9 44 88MMFS00M1637S0-8MS.50X S E5F1M704-XE.021893Y-MZS-. GGZFM",
        "N1 883YG9 44 88MMFS00M1637S0-8MS.50X S E5F1M704-XE.021893Y-MZS-. GGZFM*124",
    ),
    (
        911_534_127,
        "883YG9 44 88MMFS00M1637S0-8MS.50X S E5F1M704-XE.021893Y-MZS-. GGZFM",
        "N911534127 883YG9 44 88MMFS00M1637S0-8MS.50X S E5F1M704-XE.021893Y-MZS-. GGZFM*114",
    ),
    (
        2,
        "G- 0.9G0S9E91311F9EY72917F637F.F3705MS4M13S8M2X .S-S-1G1FGG",
        "N2 G- 0.9G0S9E91311F9EY72917F637F.F3705MS4M13S8M2X .S-S-1G1FGG*118",
    ),
    (
        1_244_894_256,
        "G- 0.9G0S9E91311F9EY72917F637F.F3705MS4M13S8M2X .S-S-1G1FGG",
        "N1244894256 G- 0.9G0S9E91311F9EY72917F637F.F3705MS4M13S8M2X .S-S-1G1FGG*67",
    ),
    (
        9,
        "GX8X6 9 5Z638S5Y2396F82. 1S46.32",
        "N9 GX8X6 9 5Z638S5Y2396F82. 1S46.32*73",
    ),
    (
        471_343_262,
        "GX8X6 9 5Z638S5Y2396F82. 1S46.32",
        "N471343262 GX8X6 9 5Z638S5Y2396F82. 1S46.32*64",
    ),
    (
        10,
        ".8002Z99E836FGM28G -6G 11E8F6M9 -Y9.M2.0M0- X4 999.Y75-S1G9M2S",
        "N10 .8002Z99E836FGM28G -6G 11E8F6M9 -Y9.M2.0M0- X4 999.Y75-S1G9M2S*2",
    ),
    (
        1_308_763_750,
        ".8002Z99E836FGM28G -6G 11E8F6M9 -Y9.M2.0M0- X4 999.Y75-S1G9M2S",
        "N1308763750 .8002Z99E836FGM28G -6G 11E8F6M9 -Y9.M2.0M0- X4 999.Y75-S1G9M2S*9",
    ),
    (
        99,
        "Z85GXGG3.7069150948EFG61463M8EZZX -FM",
        "N99 Z85GXGG3.7069150948EFG61463M8EZZX -FM*46",
    ),
    (
        198_660_896,
        "Z85GXGG3.7069150948EFG61463M8EZZX -FM",
        "N198660896 Z85GXGG3.7069150948EFG61463M8EZZX -FM*25",
    ),
    (100, "Y9 -7-4GMGFG9Y9FXZ", "N100 Y9 -7-4GMGFG9Y9FXZ*77"),
    (
        1_922_097_319,
        "Y9 -7-4GMGFG9Y9FXZ",
        "N1922097319 Y9 -7-4GMGFG9Y9FXZ*113",
    ),
    (
        65_535,
        "GYY-70YFF0 E8 .E5S753SZX9",
        "N65535 GYY-70YFF0 E8 .E5S753SZX9*115",
    ),
    (
        393_839_723,
        "GYY-70YFF0 E8 .E5S753SZX9",
        "N393839723 GYY-70YFF0 E8 .E5S753SZX9*126",
    ),
    (1_999_999_999, "EE97Y2815", "N1999999999 EE97Y2815*63"),
    (1_770_254_570, "EE97Y2815", "N1770254570 EE97Y2815*55"),
    (
        2_000_000_000,
        "4X.F-2S0.G91F2.0.8",
        "N2000000000 4X.F-2S0.G91F2.0.8*9",
    ),
    (
        1_673_083_700,
        "4X.F-2S0.G91F2.0.8",
        "N1673083700 4X.F-2S0.G91F2.0.8*4",
    ),
    (
        0,
        ".6E38Z7E6553Y -6MXF275XF.MGSG-YEFZ6.F5MXY93F1--XZ",
        "N0 .6E38Z7E6553Y -6MXF275XF.MGSG-YEFZ6.F5MXY93F1--XZ*127",
    ),
    (
        1_813_489_286,
        ".6E38Z7E6553Y -6MXF275XF.MGSG-YEFZ6.F5MXY93F1--XZ",
        "N1813489286 .6E38Z7E6553Y -6MXF275XF.MGSG-YEFZ6.F5MXY93F1--XZ*77",
    ),
    (
        1,
        "23 30SE2-FYE4-X-X67--65XS6 3E0-9-386-729 61 E2YS19.7--7-S1G3F7 F",
        "N1 23 30SE2-FYE4-X-X67--65XS6 3E0-9-386-729 61 E2YS19.7--7-S1G3F7 F*38",
    ),
    (
        1_890_961_068,
        "23 30SE2-FYE4-X-X67--65XS6 3E0-9-386-729 61 E2YS19.7--7-S1G3F7 F",
        "N1890961068 23 30SE2-FYE4-X-X67--65XS6 3E0-9-386-729 61 E2YS19.7--7-S1G3F7 F*23",
    ),
];

fn line_of(rt: &impl Abort, n: u32, text: &[u8]) -> Line {
    assert!(rt; n <= 2_000_000_000);
    assert!(rt; !text.is_empty() && text.len() <= 79);
    assert!(rt; !has_byte(text, b'*') && !has_byte(text, b'\n'));
    let mut line = Line::new();
    frame(n, text, &mut line);
    line
}

#[test]
fn lines_are_written_and_read_back(rt: HostRuntime) {
    for (n, text, line) in ROWS {
        let (text, line) = (text.as_bytes(), line.as_bytes());
        let written = line_of(&rt, n, text);
        assert!(rt; written.as_slice() == line, "at {n}");
        assert!(rt; read_frame(line) == Read::Numbered { n, text }, "at {n}");
        assert!(rt; !fails(line) && n_parameter(line) == n, "at {n}");
    }
}

#[test]
fn hello_line(rt: HostRuntime) {
    let mut hello = Line::new();
    hello_frame(&mut hello);
    assert!(rt; hello.as_slice() == b"N0 M110 N1*124".as_slice());
    assert!(rt; line_number(&hello) == HELLO_NUMBER && n_parameter(&hello) == 0);
}

#[test]
fn lines_of_a_small_print(rt: HostRuntime) {
    assert!(rt; line_of(&rt, wire_number(1), b"G28").as_slice() == b"N2 G28*17".as_slice());
    assert!(rt; line_of(&rt, wire_number(2), b"G1 X10").as_slice() == b"N3 G1 X10*82".as_slice());
}

#[test]
fn faults_of_a_line(rt: HostRuntime) {
    let numbered = Read::Numbered { n: 5, text: b"G28" };
    for (line, read) in [
        (b"N5 G28*22".as_slice(), numbered),
        (b"N5 G28*23", Read::BadSum),
        (b"N5 G28", Read::NoSum),
        (b"G28", Read::Plain),
        (b"", Read::Plain),
        (b"N5 G28*", Read::BadSum),
        (b"N5 G28*22 ", numbered),
    ] {
        assert!(rt; read_frame(line) == read);
    }
}

#[test]
fn numbers_of_a_line(rt: HostRuntime) {
    for (line, number) in [
        (b"N0 M110 N7*122".as_slice(), 7),
        (b"N12M110", 12),
        (b"N1 N9 M110 N3", 3),
        (b"N1 G1 N9", 1),
        (b"N4294967296 G28", 4_294_967_295),
        (b"N G28", 0),
    ] {
        assert!(rt; line_number(line) == number);
    }
    assert!(rt; n_parameter(b"N0 M110 N7*122") == 0);
}

#[test]
fn texts_of_a_line(rt: HostRuntime) {
    assert!(rt; text(b"N5  G28*1*2") == b" G28*1".as_slice());
    assert!(rt; text(b"N5G28*") == b"G28".as_slice());
}
