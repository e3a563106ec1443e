//! How many bytes a type, a constant and a value take. A text has many of them, so one that grows is refused here.
use crate::constants::constant::{Constant, TypedConstant};
use crate::constants::ty::{ArrayType, Type};
use crate::constants::value::{TypedValue, WrittenValue};
use std::mem::size_of;

const _: () = prove!(size_of::<Type>() == 32);

const _: () = prove!(size_of::<ArrayType>() == 64);

const _: () = prove!(size_of::<Constant>() == 32);

const _: () = prove!(size_of::<TypedConstant>() == 64);

const _: () = prove!(size_of::<WrittenValue>() == 40);

const _: () = prove!(size_of::<TypedValue>() == 72);
