//! Where the labels of a disk lie.
ghost use Rattle.std.specs.Prelude.{◌≡◌, ◌≤◌, ◌<◌, ◌+◌, ◌*◌};
ghost use Rattle.vdev_label.specs.Place.{label_at, area_at, LabelsAreApart};

/// How many bytes a label has.
pub const LABEL_LEN: u64 = 0x4_0000;

/// How many labels a disk has.
pub const LABELS: u64 = 4;

/// How many bytes the area of a label's list has.
pub const AREA_LEN: usize = 0x1_c000;

/// Where the area begins in a label.
const AREA_START: u64 = 0x4000;

/// Where a label begins on a disk of this size, in bytes: two labels stand in front, and two at the
/// end, where a disk ends at the last whole multiple of a label's length (ZFS On-Disk Specification,
/// 2006, 1.2.1).
pub fn label_offset(size: u64, number: u64) -> u64
    requires number { number < LABELS }
    requires size { LABELS * LABEL_LEN ≤ size }
    ensures value { result ≡ label_at size number }
    ensures within { result + LABEL_LEN ≤ size }
{
    if number < 2 {
        number * LABEL_LEN
    } else {
        size / LABEL_LEN * LABEL_LEN - (LABELS - number) * LABEL_LEN
    }
}

/// Where the area of a label's list begins on a disk of this size.
pub(crate) fn area_offset(size: u64, number: u64) -> u64
    requires number { number < LABELS }
    requires size { LABELS * LABEL_LEN ≤ size }
    ensures value { result ≡ area_at size number }
    ensures within { result + AREA_LEN ≤ size }
{
    label_offset(size, number) + AREA_START
}

/// A law: no two labels of a disk share a byte, and each lies within it.
pub fn labels_are_apart()
    ensures { LabelsAreApart }
{}
