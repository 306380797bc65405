// Keys as columns.
use crate::column::Column;
use crate::row::Spread;
use octets::Octets;
use std::alloc::AllocError;

impl Spread for u32 {
    type Columns = u32;

    ghost parts = { λ k. k };

    ghost whole = { λ c. c };

    fn write_columns(&self, out: &mut Vec<u8>) -> Result<(), AllocError> {
        self.write_to(out)
    }

    fn of(columns: u32) -> u32 {
        columns
    }
}

impl Spread for u64 {
    type Columns = u64;

    ghost parts = { λ k. k };

    ghost whole = { λ c. c };

    fn write_columns(&self, out: &mut Vec<u8>) -> Result<(), AllocError> {
        self.write_to(out)
    }

    fn of(columns: u64) -> u64 {
        columns
    }
}

impl Spread for (u32, u32) {
    type Columns = (u32, u32);

    ghost parts = { λ k. k };

    ghost whole = { λ c. c };

    fn write_columns(&self, out: &mut Vec<u8>) -> Result<(), AllocError> {
        self.0.write_to(out)?;
        self.1.write_to(out)
    }

    fn of(columns: (u32, u32)) -> (u32, u32) {
        columns
    }
}

impl Spread for (u32, u32, u64) {
    type Columns = (u32, (u32, u64));

    ghost parts = { λ k. (k.0, (k.1, k.2)) };

    ghost whole = { λ c. (c.0, c.1.0, c.1.1) };

    fn write_columns(&self, out: &mut Vec<u8>) -> Result<(), AllocError> {
        self.0.write_to(out)?;
        self.1.write_to(out)?;
        self.2.write_to(out)
    }

    fn of((first, (second, third)): (u32, (u32, u64))) -> (u32, u32, u64) {
        (first, second, third)
    }
}

impl Spread for (u64, Octets) {
    type Columns = (u64, Octets);

    ghost parts = { λ k. k };

    ghost whole = { λ c. c };

    fn write_columns(&self, out: &mut Vec<u8>) -> Result<(), AllocError> {
        self.0.write_to(out)?;
        self.1.write_to(out)
    }

    fn of(columns: (u64, Octets)) -> (u64, Octets) {
        columns
    }
}

impl Spread for (u64, Octets, u32) {
    type Columns = (u64, (Octets, u32));

    ghost parts = { λ k. (k.0, (k.1, k.2)) };

    ghost whole = { λ c. (c.0, c.1.0, c.1.1) };

    fn write_columns(&self, out: &mut Vec<u8>) -> Result<(), AllocError> {
        self.0.write_to(out)?;
        self.1.write_to(out)?;
        self.2.write_to(out)
    }

    fn of((first, (second, third)): (u64, (Octets, u32))) -> (u64, Octets, u32) {
        (first, second, third)
    }
}

impl Spread for (u64, Octets, u32, u32) {
    type Columns = (u64, (Octets, (u32, u32)));

    ghost parts = { λ k. (k.0, (k.1, (k.2, k.3))) };

    ghost whole = { λ c. (c.0, c.1.0, c.1.1.0, c.1.1.1) };

    fn write_columns(&self, out: &mut Vec<u8>) -> Result<(), AllocError> {
        self.0.write_to(out)?;
        self.1.write_to(out)?;
        self.2.write_to(out)?;
        self.3.write_to(out)
    }

    fn of(
        (first, (second, (third, fourth))): (u64, (Octets, (u32, u32))),
    ) -> (u64, Octets, u32, u32) {
        (first, second, third, fourth)
    }
}

impl Spread for (u32, Octets) {
    type Columns = (u32, Octets);

    ghost parts = { λ k. k };

    ghost whole = { λ c. c };

    fn write_columns(&self, out: &mut Vec<u8>) -> Result<(), AllocError> {
        self.0.write_to(out)?;
        self.1.write_to(out)
    }

    fn of(columns: (u32, Octets)) -> (u32, Octets) {
        columns
    }
}

impl Spread for () {
    type Columns = ();

    ghost parts = { λ k. k };

    ghost whole = { λ c. c };

    fn write_columns(&self, out: &mut Vec<u8>) -> Result<(), AllocError> {
        self.write_to(out)
    }

    fn of(columns: ()) -> () {
        columns
    }
}
