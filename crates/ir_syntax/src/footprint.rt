//! How many bytes items take. A text has many of them, so one that grows is refused here.
use crate::item::{Declaration, Definition, Item, WrittenAlias, WrittenParameter, WrittenVariable};
use std::mem::size_of;

const _: () = prove!(size_of::<Item>() == 64);

const _: () = prove!(size_of::<WrittenVariable>() == 144);

const _: () = prove!(size_of::<WrittenAlias>() == 128);

const _: () = prove!(size_of::<WrittenParameter>() == 72);

const _: () = prove!(size_of::<Declaration>() == 96);

const _: () = prove!(size_of::<Definition>() == 112);
