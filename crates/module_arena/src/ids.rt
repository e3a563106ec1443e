//! Typed ids.
ghost use Rattle.std.specs.Prelude.{◌≡◌, ℕ};

use std::marker::Model;

/// The number of a variable in its arena, counted from 0 in the order of making.
#[derive(Clone, Copy, Debug, PartialEq, Eq, Hash)]
pub struct VariableId {
    number: u32,
}

impl Model for VariableId {
    ghost Value = { ℕ };

    ghost view = { λ id. id.number };

    ghost inverse = { λ n. record { number = n } };
}

impl VariableId {
    /// The id with that number.
    pub fn new(number: u32) -> VariableId
        ensures { result ≡ number }
    {
        VariableId { number }
    }

    /// The id's number.
    pub fn number(self) -> u32
        ensures { result ≡ self }
    {
        self.number
    }
}

/// The number of a function in its arena, counted from 0 in the order of making.
#[derive(Clone, Copy, Debug, PartialEq, Eq, Hash)]
pub struct FunctionId {
    number: u32,
}

impl Model for FunctionId {
    ghost Value = { ℕ };

    ghost view = { λ id. id.number };

    ghost inverse = { λ n. record { number = n } };
}

impl FunctionId {
    /// The id with that number.
    pub fn new(number: u32) -> FunctionId
        ensures { result ≡ number }
    {
        FunctionId { number }
    }

    /// The id's number.
    pub fn number(self) -> u32
        ensures { result ≡ self }
    {
        self.number
    }
}

/// The number of an alias in its arena, counted from 0 in the order of making.
#[derive(Clone, Copy, Debug, PartialEq, Eq, Hash)]
pub struct AliasId {
    number: u32,
}

impl Model for AliasId {
    ghost Value = { ℕ };

    ghost view = { λ id. id.number };

    ghost inverse = { λ n. record { number = n } };
}

impl AliasId {
    /// The id with that number.
    pub fn new(number: u32) -> AliasId
        ensures { result ≡ number }
    {
        AliasId { number }
    }

    /// The id's number.
    pub fn number(self) -> u32
        ensures { result ≡ self }
    {
        self.number
    }
}

/// The number of a constant in its arena, counted from 0 in the order of making.
#[derive(Clone, Copy, PartialEq, Eq, Hash)]
pub struct ConstId {
    number: u64,
}

impl Model for ConstId {
    ghost Value = { ℕ };

    ghost view = { λ id. id.number };

    ghost inverse = { λ n. record { number = n } };
}

impl ConstId {
    /// The id with that number.
    pub fn new(number: u64) -> ConstId
        ensures { result ≡ number }
    {
        ConstId { number }
    }

    /// The id's number.
    pub fn number(self) -> u64
        ensures { result ≡ self }
    {
        self.number
    }
}

/// The number of a block in its function, counted from 0 in order.
#[derive(Clone, Copy, PartialEq, Eq, Hash)]
pub struct BlockId {
    number: u32,
}

impl Model for BlockId {
    ghost Value = { ℕ };

    ghost view = { λ id. id.number };

    ghost inverse = { λ n. record { number = n } };
}

impl BlockId {
    /// The id with that number.
    pub fn new(number: u32) -> BlockId
        ensures { result ≡ number }
    {
        BlockId { number }
    }

    /// The id's number.
    pub fn number(self) -> u32
        ensures { result ≡ self }
    {
        self.number
    }
}

/// The number of a parameter or result in its function: the parameters from 0, then the results in order.
#[derive(Clone, Copy, PartialEq, Eq, Hash)]
pub struct ValueId {
    number: u32,
}

impl Model for ValueId {
    ghost Value = { ℕ };

    ghost view = { λ id. id.number };

    ghost inverse = { λ n. record { number = n } };
}

impl ValueId {
    /// The id with that number.
    pub fn new(number: u32) -> ValueId
        ensures { result ≡ number }
    {
        ValueId { number }
    }

    /// The id's number.
    pub fn number(self) -> u32
        ensures { result ≡ self }
    {
        self.number
    }
}
