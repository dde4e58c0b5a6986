//! Disks that are away, come back, and have every block again: which groups they lack.
use Moment::{Opened, Planned, Whole};
use meta_objset::StaleSpans;
use stale_disks::{disk_guids, spans_after, spans_opened, spans_without, stale_groups};
use std::alloc::{AllocError, Global};
use std::test::Fail;
use vdev_label::{Config, Vdev};

/// A group of that number is planned or opened, or disks have every block again.
enum Moment {
    Planned(u64),
    Opened(u64),
    Whole,
}

/// A moment, which of three disks are out, or are whole, and the spans then.
type Case = (Moment, [bool; 3], &'static str);

const LIFE: [Case; 10] = [
    (Planned(5), [false, false, false], ""),
    (Planned(6), [false, false, true], "13 from 6 "),
    (Planned(7), [false, true, true], "12 from 7 13 from 6 "),
    (Opened(7), [false, true, false], "12 from 7 13 6 to 7 "),
    (Planned(8), [false, true, false], "12 from 7 13 6 to 7 "),
    (Planned(9), [false, true, true], "12 from 7 13 from 6 "),
    (Opened(9), [true, false, false], "12 7 to 9 13 6 to 9 "),
    (
        Planned(10),
        [true, false, false],
        "11 from 10 12 7 to 9 13 6 to 9 ",
    ),
    (Opened(9), [false, false, false], "12 7 to 9 13 6 to 9 "),
    (Whole, [true, false, true], "12 7 to 9 "),
];

/// The groups that each disk lacks in the end.
const LACKED: &str = "[None, Some(GroupSpan { from: 7, to: 9 }), None]";

fn three_disks(alloc: Global) -> Result<Config, AllocError> {
    let children = vec![in alloc; 11, 12]?;
    let others = vec![in alloc; 13]?;
    let vdevs = vec![in alloc; vdev(children), vdev(others)]?;
    Ok(Config { vdevs })
}

fn vdev(children: Vec<u64>) -> Vdev {
    Vdev {
        guid: 10,
        parity: 1,
        child_sectors: 7168,
        slab_shift: 12,
        meta_slabs: 1,
        children,
    }
}

/// The spans, each with its end where it has one.
fn told(alloc: Global, spans: &StaleSpans) -> Result<String, AllocError> {
    let mut text = String::new(alloc);
    for span in spans.rows() {
        let (disk, from, to) = (span.disk, span.from, span.to);
        let row = match to {
            u64::MAX => format!(in alloc; "{disk} from {from} ")?,
            _ => format!(in alloc; "{disk} {from} to {to} ")?,
        };
        text.push_str(row.as_str())?;
    }
    Ok(text)
}

/// The moments behind which the spans are others than they should.
fn wrong_moments(alloc: Global) -> Result<String, AllocError> {
    let guids = disk_guids(alloc, &three_disks(alloc)?)?;
    let mut spans = StaleSpans::new(alloc);
    let mut wrong = String::new(alloc);
    for (moment, marks, wanted) in &LIFE {
        spans = match moment {
            Planned(group) => spans_after(alloc, &spans, &guids, marks, *group)?,
            Opened(group) => spans_opened(alloc, &spans, &guids, marks, *group)?,
            Whole => spans_without(alloc, &spans, &guids, marks)?,
        };
        let came = told(alloc, &spans)?;
        if came.as_str() != *wanted {
            wrong.push_str(format!(in alloc; "{wanted}: {came}\n")?.as_str())?;
        }
    }
    let groups = format!(in alloc; "{:?}", stale_groups(alloc, &spans, &guids)?)?;
    if groups.as_str() != LACKED {
        wrong.push_str(groups.as_str())?;
    }
    Ok(wrong)
}

#[test]
fn spans_go_on(rt: HostRuntime) -> Result<(), Fail> {
    let wrong = wrong_moments(rt.alloc())?;
    assert!(rt; wrong.is_empty(), "{wrong}");
    Ok(())
}
