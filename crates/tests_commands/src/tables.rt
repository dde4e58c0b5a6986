//! The tables, byte for byte.
use pool_command::{
    DiskState, DiskStatus, PoolStatus, ScrubReport, VdevStatus, VolumeRow, list_text, scrub_text,
    status_text,
};
use std::alloc::{AllocError, Global};
use std::test::Fail;

const HEADER: &str =
    "NAME                                                              SIZE   BLOCK       GROUP\n";

/// Rows by their name and numbers (size, block size, group), and the text of each.
const ROWS: [(&str, [u64; 3], &str); 6] = [
    (
        "v",
        [1024, 512, 4],
        "v                                                                 1024     512           4\n",
    ),
    (
        "abcdefghijklmnopqrstuvwxyz0@abcdefghijklmnopqrstuvwxyz1",
        [1 << 40, 1 << 17, 99_999_999_999],
        "abcdefghijklmnopqrstuvwxyz0@abcdefghijklmnopqrstuvwxyz1  1099511627776  131072 99999999999\n",
    ),
    (
        "v@s",
        [8192, 8192, 999_999_999_999],
        "v@s                                                               8192    8192 999999999999\n",
    ),
    (
        "v",
        [0, 131_072, 4_611_686_018_427_387_904],
        "v                                                                    0  131072 4611686018427387904\n",
    ),
    (
        "",
        [99_999_999_999_999, 12_345_678, 0],
        "                                                        9999999999999912345678           0\n",
    ),
    (
        "ä",
        [1, 2, 3],
        "ä                                                                    1       2           3\n",
    ),
];

fn row(alloc: Global, name: &str, numbers: [u64; 3]) -> Result<VolumeRow, AllocError> {
    let [size, block_size, group] = numbers;
    Ok(VolumeRow {
        name: String::from_str(alloc, name)?,
        size,
        block_size,
        group,
    })
}

#[test]
fn volumes_stand_in_columns(rt: HostRuntime) -> Result<(), Fail> {
    let alloc = rt.alloc();
    for (name, numbers, wanted) in &ROWS {
        let rows = vec![in alloc; row(alloc, name, *numbers)?]?;
        let text = list_text(alloc, &rows)?;
        let wanted = format!(in alloc; "{HEADER}{wanted}")?;
        assert!(rt; text == wanted, "{text}");
    }
    Ok(())
}

#[test]
fn rows_stand_in_their_order(rt: HostRuntime) -> Result<(), Fail> {
    let alloc = rt.alloc();
    let rows = vec![in alloc;
        row(alloc, "w", [1024, 512, 4])?,
        row(alloc, "v", [512, 512, 5])?,
    ]?;
    let text = list_text(alloc, &rows)?;
    let wanted = format!(in alloc;
        "{HEADER}\
w                                                                 1024     512           4
v                                                                  512     512           5
"
    )?;
    assert!(rt; text == wanted, "{text}");
    assert!(rt; list_text(alloc, &[])?.as_str() == HEADER);
    Ok(())
}

const STATUS: &str = "\
pool tank
claim 3
group 4
vdev 0 raidz1
  disk 0 00000000000000a1 online
  disk 1 ffffffffffffffff absent
  disk 2 0123456789abcdef stale 5 18446744073709551615
vdev 1 raidz2
  disk 3 0000000000000001 online
";

fn disk(number: usize, guid: u64, state: DiskState) -> DiskStatus {
    DiskStatus {
        number,
        guid,
        state,
    }
}

#[test]
fn a_pool_is_told(rt: HostRuntime) -> Result<(), Fail> {
    let alloc = rt.alloc();
    let stale = DiskState::Stale {
        from: 5,
        to: u64::MAX,
    };
    let disks = vec![in alloc;
        disk(0, 0xa1, DiskState::Online),
        disk(1, u64::MAX, DiskState::Absent),
        disk(2, 0x0123_4567_89ab_cdef, stale),
    ]?;
    let vdev = VdevStatus {
        number: 0,
        parities: 1,
        disks,
    };
    let second = VdevStatus {
        number: 1,
        parities: 2,
        disks: vec![in alloc; disk(3, 1, DiskState::Online)]?,
    };
    let pool = PoolStatus {
        name: String::from_str(alloc, "tank")?,
        claim: 3,
        group: 4,
        vdevs: vec![in alloc; vdev, second]?,
    };
    let text = status_text(alloc, &pool)?;
    assert!(rt; text.as_str() == STATUS, "{text}");
    Ok(())
}

/// What scrubs found (group, findings, left), and the text of each.
const REPORTS: [([u64; 3], &str); 4] = [
    ([5, 0, 0], "group 5 findings 0\n"),
    ([5, 17, 0], "group 5 findings 17\n"),
    ([40, 17, 3], "group 40 findings 17\nleft 3\n"),
    (
        [4_611_686_018_427_387_904, u64::MAX, 1],
        "group 4611686018427387904 findings 18446744073709551615\nleft 1\n",
    ),
];

#[test]
fn scrubs_are_reported(rt: HostRuntime) -> Result<(), Fail> {
    for (found, wanted) in &REPORTS {
        let [group, findings, left] = *found;
        let report = ScrubReport {
            group,
            findings,
            left,
        };
        let text = scrub_text(rt.alloc(), &report)?;
        assert!(rt; text.as_str() == *wanted, "{text}");
    }
    Ok(())
}
