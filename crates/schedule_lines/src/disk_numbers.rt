//! Numbers of disks, which a contract sees as a list.
ghost use Rattle.std.specs.Prelude.{◌≡◌};

use std::marker::Model;

/// Numbers of disks, in any order.
#[derive(Debug, Drop)]
pub struct DiskNumbers {
    numbers: Vec<u32>,
}

impl Model for DiskNumbers {
    ghost use Rattle.std.specs.Prelude.{ℕ, List};

    ghost Value = { List ℕ };

    ghost view = { λ disks. disks.numbers.items };
}

impl DiskNumbers {
    pub fn new(numbers: Vec<u32>) -> DiskNumbers
        ensures { result ≡ numbers.items }
    {
        DiskNumbers { numbers }
    }

    /// The numbers, given back.
    pub fn into_vec(self) -> Vec<u32>
        ensures { result.items ≡ self }
    {
        self.numbers
    }

    pub fn as_slice(&self) -> &[u32]
        ensures { result.now ≡ self.now }
    {
        self.numbers.as_slice()
    }
}
