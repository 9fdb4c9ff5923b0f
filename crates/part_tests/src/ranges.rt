use super::expect::expect;
use std::alloc::{AllocError, Global};
use std::test::Fail;
use vk_ranges::{RangeMap, RangeValue};

/// What is remembered of a byte.
#[derive(Clone, Copy, PartialEq)]
struct Mark {
    is_dirty: bool,
    writer: Option<usize>,
}

impl RangeValue for Mark {
    fn duplicate(&self) -> Result<Mark, AllocError> {
        Ok(*self)
    }

    fn is_same(&self, other: &Mark) -> bool {
        *self == *other
    }
}

fn one_more(value: &u64) -> Result<u64, AllocError> {
    Ok(value.wrapping_add(1))
}

fn is_eight(value: &u64) -> bool {
    *value == 8
}

fn worked(alloc: Global) -> Result<RangeMap<u64>, AllocError> {
    let mut map = RangeMap::new(alloc, 10, 0u64)?;
    map.assign(2, 5, 7)?;
    map.update(4, 6, one_more)?;
    Ok(map)
}

/// Where the runs of the worked map start and end, with their values.
static RUNS: [(u64, u64, u64); 5] = [(0, 2, 0), (2, 4, 7), (4, 5, 8), (5, 6, 1), (6, 10, 0)];

/// The runs of a worked map, and the first index whose value passes a test.
#[test]
fn worked_map(rt: HostRuntime) -> Result<(), Fail> {
    let map = worked(rt.alloc())?;
    assert!(rt; map.len() == 10);
    let mut rows = RUNS.iter().copied();
    for run in map.overlapping(0, 10) {
        expect(
            &rt,
            "a run",
            Some((run.start, run.end, *run.value)),
            rows.next(),
        );
    }
    expect(&rt, "the end", rows.next(), None);
    expect(&rt, "an 8", map.find(0, 10, is_eight), Some(4));
    expect(&rt, "no 8", map.find(5, 10, is_eight), None);
    Ok(())
}

/// The most indices that a map has.
const LONGEST: u64 = 4_294_967_295;

const CLEAN: Mark = Mark {
    is_dirty: false,
    writer: None,
};

fn cleaned(_mark: &Mark) -> Result<Mark, AllocError> {
    Ok(CLEAN)
}

fn cleaned_map(alloc: Global) -> Result<RangeMap<Mark>, AllocError> {
    let dirty = Mark {
        is_dirty: true,
        writer: Some(3),
    };
    let mut map = RangeMap::new(alloc, LONGEST, CLEAN)?;
    map.assign(4, 8, dirty)?;
    map.update(0, 8, cleaned)?;
    Ok(map)
}

/// Equal neighbours are one run again, also where the value is a struct; and a map of one index more
/// is refused.
#[test]
fn neighbours_merge(rt: HostRuntime) -> Result<(), Fail> {
    let map = cleaned_map(rt.alloc())?;
    assert!(rt; map.len() == LONGEST);
    for run in map.overlapping(0, LONGEST) {
        expect(
            &rt,
            "the run",
            (run.end, run.value.is_dirty),
            (LONGEST, false),
        );
    }
    assert!(rt; RangeMap::new(rt.alloc(), LONGEST + 1, CLEAN).is_err());
    Ok(())
}
