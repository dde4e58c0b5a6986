//! Parities of small blocks worked by hand, and lost columns given back. The tables of the field, which the
//! test goes over too, call `gf256::mul`, `gf_lanes::xor_into` and their like.
ghost use Rattle.std.specs.Prelude.{◌≡◌, ◌≤◌, ◌<◌, length, sum, All, IfSome, IfOk, slice_index};

use crate::fields::{FIELD, Field, KERNELS};
use crate::layouts::{LAYOUTS, Layouts};
use crate::lines::{Bench, Call, wrong_lines};
use arrayvec::ArrayVec;
use raidz_parity::{Columns, Parity, Refusal};
use std::alloc::Global;
use std::test::Fail;

/// `generate` has the lengths of the columns and a block's bytes, and `read` the bytes of both parities
/// and of the block as they are read, where those columns are rebuilt that were told to be lost. Both
/// parities and the block come of it. Among the columns that are lost the parities come first.
const PARITIES: &[(&str, &str)] = &[
    ("generate 1 1 1 =010280", "generated 83 80 010280"),
    // The last column has the weight one.
    ("generate 1 1 =8000", "generated 80 1d 8000"),
    // A column that is shorter.
    ("generate 2 1 =010203", "generated 0202 0104 010203"),
    // Columns that are longer than the lanes of the kernels.
    (
        "generate 130 67 =00254a6f94b9de082d52779cc1e610355a7fa4c9ee183d6287acd1f620456a8fb4d903284d7297bce10\
         b30557a9fc4e913385d82a7ccf11b40658aafd4f923486d92b7dc062b50759abfe40e33587da2c7ec16\
         3b6085aacff41e43688db2d701264b7095badf092e53789dc2e711365b80a5caef193e6388add2f7214\
         66b90b5da04294e7398bde20c31567ba0c5ea14395e83a8cdf21c41668bb0d5fa24496e93b8dd072c51\
         769bc0e50f34597ea3c8ed173c6186abd0f51f44698eb3d802274c7196bbe0",
        "generated 296b39f7295bd2397b29d7592bf2296bd9d7693bf2595be937792bd2692bf93769de2f793be95759ee3\
         f692bd95729fe2f59db297739ee5f29eb3977d6de6f39fb2957dc062b50759abfe40e33587da2c7ec16\
         3b6085aacff41e43688db2d701264b7095badf092e53789dc2e711365b80a5caef193e6388add2f7214\
         66b90b5da04 \
         2904e746888dad210cdf4ee075c519343756987ddd711c4fa39045d509e447bba8a82a01ec7ff380d02\
         239d457eb78d81a113cb28370e072e944ba9bb7c80ae14c8293a50c56a0ea2963d51c66b0fa5993c52c\
         76c0174983f53c86d00779b3024c96e03769a3125ca6f02799d3226cb61d5789c3327cc60d47b9f3428\
         cd63d77a908 \
         00254a6f94b9de082d52779cc1e610355a7fa4c9ee183d6287acd1f620456a8fb4d903284d7297bce10\
         b30557a9fc4e913385d82a7ccf11b40658aafd4f923486d92b7dc062b50759abfe40e33587da2c7ec16\
         3b6085aacff41e43688db2d701264b7095badf092e53789dc2e711365b80a5caef193e6388add2f7214\
         66b90b5da04294e7398bde20c31567ba0c5ea14395e83a8cdf21c41668bb0d5fa24496e93b8dd072c51\
         769bc0e50f34597ea3c8ed173c6186abd0f51f44698eb3d802274c7196bbe0",
    ),
    // Any two columns are rebuilt, of which another byte was read.
    (
        "lost 0 0; read 1 1 1 =09 =80 =010280",
        "lost; rebuilt 83 80 010280",
    ),
    (
        "lost 0 1; read 1 1 1 =09 =09 =010280",
        "lost; rebuilt 83 80 010280",
    ),
    (
        "lost 0 2; read 1 1 1 =09 =80 =090280",
        "lost; rebuilt 83 80 010280",
    ),
    (
        "lost 0 3; read 1 1 1 =09 =80 =010980",
        "lost; rebuilt 83 80 010280",
    ),
    (
        "lost 0 4; read 1 1 1 =09 =80 =010209",
        "lost; rebuilt 83 80 010280",
    ),
    (
        "lost 1 0; read 1 1 1 =09 =09 =010280",
        "lost; rebuilt 83 80 010280",
    ),
    (
        "lost 1 1; read 1 1 1 =83 =09 =010280",
        "lost; rebuilt 83 80 010280",
    ),
    (
        "lost 1 2; read 1 1 1 =83 =09 =090280",
        "lost; rebuilt 83 80 010280",
    ),
    (
        "lost 1 3; read 1 1 1 =83 =09 =010980",
        "lost; rebuilt 83 80 010280",
    ),
    (
        "lost 1 4; read 1 1 1 =83 =09 =010209",
        "lost; rebuilt 83 80 010280",
    ),
    (
        "lost 2 0; read 1 1 1 =09 =80 =090280",
        "lost; rebuilt 83 80 010280",
    ),
    (
        "lost 2 1; read 1 1 1 =83 =09 =090280",
        "lost; rebuilt 83 80 010280",
    ),
    (
        "lost 2 2; read 1 1 1 =83 =80 =090280",
        "lost; rebuilt 83 80 010280",
    ),
    (
        "lost 2 3; read 1 1 1 =83 =80 =090980",
        "lost; rebuilt 83 80 010280",
    ),
    (
        "lost 2 4; read 1 1 1 =83 =80 =090209",
        "lost; rebuilt 83 80 010280",
    ),
    (
        "lost 3 0; read 1 1 1 =09 =80 =010980",
        "lost; rebuilt 83 80 010280",
    ),
    (
        "lost 3 1; read 1 1 1 =83 =09 =010980",
        "lost; rebuilt 83 80 010280",
    ),
    (
        "lost 3 2; read 1 1 1 =83 =80 =090980",
        "lost; rebuilt 83 80 010280",
    ),
    (
        "lost 3 3; read 1 1 1 =83 =80 =010980",
        "lost; rebuilt 83 80 010280",
    ),
    (
        "lost 3 4; read 1 1 1 =83 =80 =010909",
        "lost; rebuilt 83 80 010280",
    ),
    (
        "lost 4 0; read 1 1 1 =09 =80 =010209",
        "lost; rebuilt 83 80 010280",
    ),
    (
        "lost 4 1; read 1 1 1 =83 =09 =010209",
        "lost; rebuilt 83 80 010280",
    ),
    (
        "lost 4 2; read 1 1 1 =83 =80 =090209",
        "lost; rebuilt 83 80 010280",
    ),
    (
        "lost 4 3; read 1 1 1 =83 =80 =010909",
        "lost; rebuilt 83 80 010280",
    ),
    (
        "lost 4 4; read 1 1 1 =83 =80 =010209",
        "lost; rebuilt 83 80 010280",
    ),
    // Three are not.
    (
        "lost 0 2 3; read 1 1 1 =83 =80 =010280",
        "lost; DiskFault 83 80 010280",
    ),
    // Both columns of two lengths are made again from their parities alone.
    (
        "lost 2 3; read 2 1 =0202 =0104 =000000",
        "lost; rebuilt 0202 0104 010203",
    ),
];

/// The lengths of two columns or three, of which none is longer than the first, nor than 1000 bytes.
fn lengths(numbers: &[usize]) -> Option<ArrayVec<usize, 32>>
    ensures count { IfSome result (λ it. length it.items ≡ length numbers.now) }
    ensures some { IfSome result (λ it. 0 < length it.items) }
    ensures small { IfSome result (λ it. sum it.items ≤ 3000) }
    ensures longest { IfSome result (λ it. All (λ n. n ≤ slice_index it.items 0) it.items) }
{
    let mut lengths = ArrayVec::new();
    match numbers {
        [first, second] if second <= first && *first <= 1000 => {
            lengths.push(*first);
            lengths.push(*second);
        }
        [first, second, third] if second <= first && third <= first && *first <= 1000 => {
            lengths.push(*first);
            lengths.push(*second);
            lengths.push(*third);
        }
        _ => return None,
    }
    Some(lengths)
}

/// The columns that a call tells.
fn columns_of(alloc: Global, call: &Call) -> Result<Columns, Fail>
    ensures parities { IfOk result (λ columns. length columns.parity ≡ 2) }
    ensures columns { IfOk result (λ columns.
        length columns.data_columns ≡ length call.now.numbers.items) }
{
    let Some(lengths) = lengths(&call.numbers) else {
        return Err(Fail::new("no such lengths"));
    };
    let rows = lengths[0];
    let size: usize = lengths.iter().sum();
    if call.name == "generate" && call.bytes.len() == size {
        return Ok(Columns::generate(alloc, 2, lengths, call.bytes.clone()?)?);
    }
    if call.name == "generate" || call.bytes.len() != 2 * rows + size {
        return Err(Fail::new("no bytes of these columns"));
    }
    let (sums, rest) = call.bytes.split_at(rows);
    let (weighed, block) = rest.split_at(rows);
    let parity = Parity::Two(sums.to_vec(alloc)?, weighed.to_vec(alloc)?);
    Ok(Columns::new(parity, lengths, block.to_vec(alloc)?))
}

/// The columns that are lost.
#[derive(Drop)]
struct Parities(Vec<usize>);

impl Bench for Parities {
    fn answer(&mut self, alloc: Global, call: &Call) -> Result<String, Fail> {
        if call.name == "lost" {
            self.0 = call.numbers.clone()?;
            return Ok(format!(in alloc; "lost")?);
        }
        let mut columns = columns_of(alloc, call)?;
        let count = call.numbers.len() + 2;
        let done = if call.name == "generate" {
            "generated"
        } else if self.0.iter().all(|column| *column < count) {
            match columns.rebuild(&self.0) {
                Ok(()) => "rebuilt",
                Err(Refusal::DiskFault) => "DiskFault",
            }
        } else {
            "no such column"
        };
        let sums = hex::encode(alloc, columns.parity(0))?;
        let (parity, block) = columns.into_parts();
        let weighed = hex::encode(alloc, parity.row(1))?;
        let block = hex::encode(alloc, block.as_slice())?;
        Ok(format!(in alloc; "{done} {sums} {weighed} {block}")?)
    }
}

#[test]
fn field_layouts_and_parities(rt: HostRuntime) -> Result<(), Fail> {
    let mut wrong = wrong_lines(&rt, rt.alloc(), &mut Field, FIELD)?;
    wrong.push_str(wrong_lines(&rt, rt.alloc(), &mut Field, KERNELS)?.as_str())?;
    wrong.push_str(wrong_lines(&rt, rt.alloc(), &mut Layouts(None), LAYOUTS)?.as_str())?;
    let mut parities = Parities(Vec::new(rt.alloc()));
    wrong.push_str(wrong_lines(&rt, rt.alloc(), &mut parities, PARITIES)?.as_str())?;
    assert!(rt; wrong.is_empty(), "{wrong}");
    Ok(())
}
