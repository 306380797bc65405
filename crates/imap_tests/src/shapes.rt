//! Commands of every shape, written in every way that a client may write them: each is read as itself.
use crate::commands::told;
use crate::families::FAMILIES;
use crate::manners::{Letters, Strings, filled, written};
use std::alloc::{AllocError, Global};
use std::test::Fail;

/// A frame with places, and for each of these the texts that may stand there. Each text stands beside what it means, as `Debug` shows it,
/// with the marks of `manners`.
#[derive(Clone, Copy)]
pub(crate) struct Family {
    pub(crate) frame: (&'static str, &'static str),
    pub(crate) places: &'static [&'static [(&'static str, &'static str)]],
}

/// Each form of strings, and a case of letters for it.
const MANNERS: [[(Letters, Strings); 3]; 3] = [
    [
        (Letters::AsTheyAre, Strings::Atoms),
        (Letters::Small, Strings::Quoted),
        (Letters::Mixed, Strings::Literals),
    ],
    [
        (Letters::Small, Strings::Atoms),
        (Letters::Mixed, Strings::Quoted),
        (Letters::AsTheyAre, Strings::Literals),
    ],
    [
        (Letters::Mixed, Strings::Atoms),
        (Letters::AsTheyAre, Strings::Quoted),
        (Letters::Small, Strings::Literals),
    ],
];

/// A unit and its meaning, with marks.
#[derive(Drop)]
struct Case {
    unit: Vec<u8>,
    meaning: Vec<u8>,
}

/// The case of that number, counting through the texts of each place. None behind the last.
fn case_of(alloc: Global, family: &Family, number: u64) -> Result<Option<Case>, AllocError> {
    let mut left = number;
    let mut units = Vec::new(alloc);
    let mut meanings = Vec::new(alloc);
    for texts in family.places {
        let count = texts.len() as u64;
        if count == 0 {
            return Ok(None);
        }
        let (unit, meaning) = texts[(left % count) as usize];
        left /= count;
        units.push(unit)?;
        meanings.push(meaning)?;
    }
    if left > 0 {
        return Ok(None);
    }
    Ok(Some(Case {
        unit: filled(alloc, family.frame.0, units.as_slice())?,
        meaning: filled(alloc, family.frame.1, meanings.as_slice())?,
    }))
}

/// Whether the unit, so written, is read as what it means.
fn is_read_as(
    alloc: Global,
    unit: &[u8],
    letters: Letters,
    strings: Strings,
    meaning: &[u8],
) -> Result<bool, AllocError> {
    let unit = written(alloc, unit, letters, strings)?;
    Ok(told(alloc, unit.as_slice())?.as_bytes() == meaning)
}

fn is_read(alloc: Global, case: &Case, number: u64) -> Result<bool, AllocError> {
    let meaning = written(
        alloc,
        case.meaning.as_slice(),
        Letters::AsTheyAre,
        Strings::Shown,
    )?;
    for (letters, strings) in MANNERS[(number % 3) as usize] {
        if !is_read_as(
            alloc,
            case.unit.as_slice(),
            letters,
            strings,
            meaning.as_slice(),
        )? {
            return Ok(false);
        }
    }
    Ok(true)
}

/// The first case of a family that isn't read as itself.
fn first_unread(alloc: Global, family: &Family) -> Result<Option<u64>, AllocError> {
    for number in 0..100_000 {
        match case_of(alloc, family, number)? {
            None => return Ok(None),
            Some(case) => {
                if !is_read(alloc, &case, number)? {
                    return Ok(Some(number));
                }
            }
        }
    }
    Ok(Some(100_000))
}

/// The places of a family and of its first case that isn't read as itself.
fn first_of_all(alloc: Global) -> Result<Option<(usize, u64)>, AllocError> {
    for (at, family) in FAMILIES.iter().enumerate() {
        if let Some(number) = first_unread(alloc, family)? {
            return Ok(Some((at, number)));
        }
    }
    Ok(None)
}

#[test]
fn what_is_written_is_read(rt: HostRuntime) -> Result<(), Fail> {
    assert_eq!(rt; first_of_all(rt.alloc())?, None);
    Ok(())
}
