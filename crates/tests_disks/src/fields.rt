//! Elements of the field, worked by hand on the polynomials, and the kernels over many of them.
use crate::lines::{Bench, Call};
use crate::pattern::Pattern;
use gf_lanes::{horner2_into, horner4_into, mul_add_into, mul_into, xor_into};
use gf256::{double, inverse, mul, power_of_x};
use std::alloc::{AllocError, Global};
use std::test::Fail;

/// Calls on bytes, and the byte that comes of them.
pub(crate) const FIELD: &[(&str, &str)] = &[
    ("double =80", "1d"),
    ("mul =80 =80", "13"),
    ("mul =02 =8e", "01"),
    // Powers of x, whose exponents are told as bytes too.
    ("power =00", "01"),
    ("power =08", "1d"),
    ("power =ff", "01"),
    ("inverse =00", "none"),
    ("inverse =01", "01"),
    ("inverse =02", "8e"),
    // The columns 01, 02 and 80 under the weights 4, 2 and 1.
    ("horner =01 =02 =80", "80"),
];

/// Each kernel, as it is compiled to lanes, at lengths round those of the lanes: whether a plain loop
/// makes the same bytes. A kernel is named with its length, and with its factor as a byte.
pub(crate) const KERNELS: &[(&str, &str)] = &[
    ("sum 0", "right"),
    ("sum 1", "right"),
    ("sum 31", "right"),
    ("sum 32", "right"),
    ("sum 33", "right"),
    ("sum 63", "right"),
    ("sum 64", "right"),
    ("sum 65", "right"),
    ("sum 131072", "right"),
    ("double_and_add 0", "right"),
    ("double_and_add 1", "right"),
    ("double_and_add 31", "right"),
    ("double_and_add 32", "right"),
    ("double_and_add 33", "right"),
    ("double_and_add 63", "right"),
    ("double_and_add 64", "right"),
    ("double_and_add 65", "right"),
    ("double_and_add 131072", "right"),
    ("quadruple_and_add 0", "right"),
    ("quadruple_and_add 1", "right"),
    ("quadruple_and_add 31", "right"),
    ("quadruple_and_add 32", "right"),
    ("quadruple_and_add 33", "right"),
    ("quadruple_and_add 63", "right"),
    ("quadruple_and_add 64", "right"),
    ("quadruple_and_add 65", "right"),
    ("quadruple_and_add 131072", "right"),
    ("product 0 =00", "right"),
    ("product 1 =00", "right"),
    ("product 31 =00", "right"),
    ("product 32 =00", "right"),
    ("product 33 =00", "right"),
    ("product 63 =00", "right"),
    ("product 64 =00", "right"),
    ("product 65 =00", "right"),
    ("product 131072 =00", "right"),
    ("product 0 =01", "right"),
    ("product 1 =01", "right"),
    ("product 31 =01", "right"),
    ("product 32 =01", "right"),
    ("product 33 =01", "right"),
    ("product 63 =01", "right"),
    ("product 64 =01", "right"),
    ("product 65 =01", "right"),
    ("product 131072 =01", "right"),
    ("product 0 =02", "right"),
    ("product 1 =02", "right"),
    ("product 31 =02", "right"),
    ("product 32 =02", "right"),
    ("product 33 =02", "right"),
    ("product 63 =02", "right"),
    ("product 64 =02", "right"),
    ("product 65 =02", "right"),
    ("product 131072 =02", "right"),
    ("product 0 =8e", "right"),
    ("product 1 =8e", "right"),
    ("product 31 =8e", "right"),
    ("product 32 =8e", "right"),
    ("product 33 =8e", "right"),
    ("product 63 =8e", "right"),
    ("product 64 =8e", "right"),
    ("product 65 =8e", "right"),
    ("product 131072 =8e", "right"),
    ("product 0 =ff", "right"),
    ("product 1 =ff", "right"),
    ("product 31 =ff", "right"),
    ("product 32 =ff", "right"),
    ("product 33 =ff", "right"),
    ("product 63 =ff", "right"),
    ("product 64 =ff", "right"),
    ("product 65 =ff", "right"),
    ("product 131072 =ff", "right"),
    ("add_product 0 =8e", "right"),
    ("add_product 1 =8e", "right"),
    ("add_product 31 =8e", "right"),
    ("add_product 32 =8e", "right"),
    ("add_product 33 =8e", "right"),
    ("add_product 63 =8e", "right"),
    ("add_product 64 =8e", "right"),
    ("add_product 65 =8e", "right"),
    ("add_product 131072 =8e", "right"),
];

#[derive(Clone, Copy)]
enum Kernel {
    Sum,
    Double,
    Quadruple,
    Product(u8),
    AddProduct(u8),
}

/// Whether the kernel makes what a plain loop does of so many bytes, which go through all values, out of
/// step with the lanes.
fn is_right(alloc: Global, kernel: Kernel, len: usize) -> Result<bool, AllocError> {
    let steps = Pattern {
        stride: 3,
        divisor: 7,
        modulus: 256,
        seed: 0,
    };
    let before = steps.bytes(alloc, len)?;
    let source = Pattern { stride: 5, ..steps }.bytes(alloc, len)?;
    let mut target = steps.bytes(alloc, len)?;
    match kernel {
        Kernel::Sum => xor_into(&mut target, &source),
        Kernel::Double => horner2_into(&mut target, &source),
        Kernel::Quadruple => horner4_into(&mut target, &source),
        Kernel::Product(factor) => mul_into(&mut target, factor),
        Kernel::AddProduct(factor) => mul_add_into(&mut target, &source, factor),
    }
    let mut all = target.len() == before.len();
    for ((byte, old), other) in target.iter().zip(before.iter()).zip(source.iter()) {
        let wanted = match kernel {
            Kernel::Sum => *old ^ *other,
            Kernel::Double => double(*old) ^ *other,
            Kernel::Quadruple => mul(4, *old) ^ *other,
            Kernel::Product(factor) => mul(factor, *old),
            Kernel::AddProduct(factor) => *old ^ mul(factor, *other),
        };
        all = all && *byte == wanted;
    }
    Ok(all)
}

#[derive(Drop)]
pub(crate) struct Field;

impl Bench for Field {
    fn answer(&mut self, alloc: Global, call: &Call) -> Result<String, Fail> {
        let kernel = match (call.name, call.bytes.as_slice()) {
            ("sum", []) => Some(Kernel::Sum),
            ("double_and_add", []) => Some(Kernel::Double),
            ("quadruple_and_add", []) => Some(Kernel::Quadruple),
            ("product", [factor]) => Some(Kernel::Product(*factor)),
            ("add_product", [factor]) => Some(Kernel::AddProduct(*factor)),
            _ => None,
        };
        if let Some(kernel) = kernel {
            let right = is_right(alloc, kernel, call.number(0))?;
            return Ok(format!(in alloc; "{}", if right { "right" } else { "wrong" })?);
        }
        let byte = match (call.name, call.bytes.as_slice()) {
            ("double", [a]) => Some(double(*a)),
            ("mul", [a, b]) => Some(mul(*a, *b)),
            ("power", [exponent]) => Some(power_of_x(*exponent)),
            ("inverse", [a]) => inverse(*a),
            ("horner", columns) => {
                let mut sum = 0;
                for column in columns {
                    sum = double(sum) ^ *column;
                }
                Some(sum)
            }
            _ => return Err(Fail::new(format_args!("no call {}", call.name))),
        };
        match byte {
            Some(byte) => Ok(format!(in alloc; "{byte:02x}")?),
            None => Ok(format!(in alloc; "none")?),
        }
    }
}
