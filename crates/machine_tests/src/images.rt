// Bytes are written here in hexadecimal digits.

use image_form::{ImageErr, from_bytes, to_bytes};
use std::alloc::Global;
use std::test::Fail;

// One function, which pushes 7 and exits with it.
const SEVEN: &str = "5041494d01808004ffffffff0f000000010000010002010727";

// Globals of 9 bytes that begin with 3, three kinds of pools, and one function, which makes a pool of the last.
const KINDS: &str = "5041494d0101020903410042030001088080100001e807ac0201010000010002500227";

// Images, and what they hold.
const HELD: [(&str, &str); 2] = [
    (
        SEVEN,
        "Image { version: 1, limits: MachineLimits { slabs: 65536, index: 4294967295 }, \
         globals: Globals { size: 0, contents: [] }, kinds: [], functions: [Function { \
         parameters: 0, extra: 0, height: 1, signature: 0, code: [Constant(7), Exit] }] }",
    ),
    (
        KINDS,
        "Image { version: 1, limits: MachineLimits { slabs: 1, index: 2 }, globals: Globals { \
         size: 9, contents: [65, 0, 66] }, kinds: [Mixed, Homogeneous { source: 8, \
         cell: 1048576, indexed: false }, Homogeneous { source: 1000, cell: 1200, \
         indexed: true }], functions: [Function { parameters: 0, extra: 0, height: 1, \
         signature: 0, code: [PoolInit(2), Exit] }] }",
    ),
];

// Changes of a byte of the second image: where it stands, the byte that is put there, and the place of the fault.
const FAULTY: [(usize, u8, usize); 7] = [
    (8, 10, 8),
    (11, 0, 11),
    (12, 2, 21),
    (13, 2, 13),
    (18, 17, 18),
    (25, 2, 25),
    (33, 3, 33),
];

// Bytes, and the place of the fault, if there is one.
const PLACES: [(&str, Option<usize>); 46] = [
    // The first image changed.
    (
        "5041494d01808004ffffffff0f00000001000001000201072700",
        Some(25),
    ),
    (
        "5041494d01808004ffffffff0f00000001000001000201870027",
        Some(24),
    ),
    (
        "5141494d01808004ffffffff0f000000010000010002010727",
        Some(0),
    ),
    (
        "5041494d02808004ffffffff0f000000010000010002010727",
        Some(4),
    ),
    ("5041494d0100ffffffff0f000000010000010002010727", Some(5)),
    (
        "5041494d01818040ffffffff0f000000010000010002010727",
        Some(7),
    ),
    (
        "5041494d01808004ffffffff0f000000010000000002010727",
        Some(19),
    ),
    ("5041494d01808004ffffffff0f0000000100000100012001", Some(23)),
    ("5041494d01808004ffffffff0f0000000100000100012000", None),
    ("5041494d01808004ffffffff0f00000001000001000127", None),
    (
        "5041494d01808004ffffffff0f000000010000010002500027",
        Some(22),
    ),
    ("5041494d01808004ffffffff0f0000000100000100010107", Some(22)),
    (
        "5041494d01808004ffffffff0f000000010000010002230127",
        Some(23),
    ),
    // Images made by chance, most of them damaged, and the place where another reader finds the fault.
    (
        "5041494d0101ffffffff0f010178010001006a0601051426111827",
        None,
    ),
    (
        "5041494d0101010000010110808010010100250700083d042737014104210234040226",
        None,
    ),
    (
        "5041494d0107ffffffff0f00000101808040010101003d0203072006272716193e0428",
        None,
    ),
    (
        "5041494d01808040ffffffff0f0000030110808010010001048080100101002c01000127",
        None,
    ),
    (
        "5041494d010101000003018080408080100001048080100001018080100001001401000126",
        None,
    ),
    (
        "5041494d01070108032fae540100030005050102370126032108030127031a040103112825",
        None,
    ),
    ("5041494d018080", Some(7)),
    ("5041494d01070108", Some(8)),
    ("5041494d0101ffffff", Some(9)),
    ("5041494d01808040ac020000", Some(12)),
    ("5041494d0107ffffffff0f0800", Some(13)),
    ("5041494d0101ac020100000300c8", Some(14)),
    ("5041494d01010100000003002d020307", Some(16)),
    ("5041494d01808040ffffffff0f0100030001", Some(18)),
    ("5041494d0107ffffffff0f0000020001010030", Some(17)),
    ("5041494d0107010804fe8f7151010003002d040007", Some(21)),
    ("5041494d0101ffffffe60f00000300000104020102002301", Some(24)),
    (
        "5041494d010101010002000001001e02030540002517000027",
        Some(22),
    ),
    (
        "5041494d0107ffffffffe60801040001003a0102023a0405012000",
        Some(10),
    ),
    (
        "5041494d01808040ac020100800100330883062730021514220427",
        Some(15),
    ),
    (
        "5041494d0101ff01ffff0fac02016e0001000b020204151339062003",
        Some(28),
    ),
    (
        "5041494d01808040ffffffff0f0101600100108080100104001c0801",
        Some(19),
    ),
    (
        "5041494d0101ac02ac02476478055feead8ec559c4acbafde6d8f938b30e39",
        Some(31),
    ),
    (
        "5041494d010101010001000400060300073c00101139033b075325031b0303081a3e05173b",
        Some(37),
    ),
    (
        "5041494d0107ac020100010003001e080004282103057f2703400503022828001805000129",
        Some(36),
    ),
    (
        "5041494d01808040feffffff0fac02765f2a6660c1a1f02e9b16e7fab52df133862098af3057a866723eea",
        Some(43),
    ),
    (
        "5041494d0101ffffffff0f0804dcb1a76f010003001308030501023c02185326008080802007030526145104",
        Some(44),
    ),
    (
        "5041494d01808040ac028100000200270300082530033b0030076018272800c87e0400065253263e06340627",
        Some(11),
    ),
    (
        "5041494d0107ac0208031649e200030002040201260035010206210003400618018080808080202003031e0401",
        Some(45),
    ),
    (
        "5041494d01808040010000020000030040070002310725011c0202041d19420728012604030702612700011b1025",
        Some(41),
    ),
    // Images but for one byte, 54, which is no instruction's code.
    (
        "5041494d0101010806df00769894a101018080400400020008080105350154310523012002020704030351390225",
        Some(30),
    ),
    (
        "5041494d01010108080cbfcbcf4c9f7f690201808040040101808040020002000c0103065442001c513805270230050108350738001d2301510400002002",
        Some(36),
    ),
    (
        "5041494d018080400108018c010003001f0202061221053004300431052601160300060224808080808020263906532500270900081d54021935003602380428",
        Some(54),
    ),
];

fn bytes_of(alloc: Global, text: &str) -> Result<Vec<u8>, Fail> {
    let mut bytes = Vec::new(alloc);
    for index in 0..text.len() / 2 {
        let pair = text.get(2 * index..2 * index + 2).unwrap_or("");
        bytes.push(u8::from_str_radix(pair, 16)?)?;
    }
    Ok(bytes)
}

// The place of the fault, if there is one.
fn fault_of(alloc: Global, bytes: &[u8]) -> Result<Option<usize>, ImageErr> {
    match from_bytes(alloc, bytes) {
        Ok(_) => Ok(None),
        Err(ImageErr::Bad(place)) => Ok(Some(place)),
        Err(ImageErr::OutOfMemory) => Err(ImageErr::OutOfMemory),
    }
}

// What the image of these bytes holds, and whether it is written as these bytes again.
fn read_and_written(alloc: Global, bytes: &[u8]) -> Result<(String, bool), Fail> {
    let image = from_bytes(alloc, bytes)?;
    let again = to_bytes(alloc, &image)?;
    let held = format!(in alloc; "{image:?}")?;
    Ok((held, again.as_slice() == bytes))
}

#[test]
fn read_and_written_again(rt: HostRuntime) -> Result<(), Fail> {
    for (text, held) in HELD {
        let bytes = bytes_of(rt.alloc(), text)?;
        let (found, same) = read_and_written(rt.alloc(), &bytes)?;
        assert_eq!(rt; (found.as_str(), same), (held, true));
    }
    Ok(())
}

#[test]
fn fronts_have_faults_at_their_ends(rt: HostRuntime) -> Result<(), Fail> {
    let bytes = bytes_of(rt.alloc(), SEVEN)?;
    for length in 0..bytes.len() {
        let place = fault_of(rt.alloc(), &bytes[..length])?;
        assert_eq!(rt; place, Some(length));
    }
    Ok(())
}

// The first row whose fault is found elsewhere.
fn first_misplaced<'a>(
    alloc: Global,
    rows: &[(&'a str, Option<usize>)],
) -> Result<Option<&'a str>, Fail> {
    for (text, wanted) in rows {
        let bytes = bytes_of(alloc, text)?;
        if fault_of(alloc, &bytes)? != *wanted {
            return Ok(Some(text));
        }
    }
    Ok(None)
}

#[test]
fn places_of_faults(rt: HostRuntime) -> Result<(), Fail> {
    assert_eq!(rt; first_misplaced(rt.alloc(), &PLACES)?, None);
    Ok(())
}

// The place of the fault in the second image with a byte changed.
fn fault_with(alloc: Global, index: usize, byte: u8) -> Result<Option<usize>, Fail> {
    let mut bytes = bytes_of(alloc, KINDS)?;
    if let Some(changed) = bytes.get_mut(index) {
        *changed = byte;
    }
    Ok(fault_of(alloc, &bytes)?)
}

#[test]
fn places_in_kinds_and_contents(rt: HostRuntime) -> Result<(), Fail> {
    for (index, byte, wanted) in FAULTY {
        let place = fault_with(rt.alloc(), index, byte)?;
        assert_eq!(rt; place, Some(wanted), "{index}");
    }
    Ok(())
}

#[test]
fn printed(rt: HostRuntime) -> Result<(), Fail> {
    let text = format!(in rt.alloc(); "{}, {}", ImageErr::Bad(7), ImageErr::OutOfMemory)?;
    assert_eq!(rt; text.as_str(), "no image at byte 7, out of memory");
    Ok(())
}
