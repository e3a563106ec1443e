//! How many bytes instructions and blocks take. A text has many of them, so one that grows is refused here.
use crate::instructions::block::{Instruction, WrittenBlock, WrittenCase, WrittenEnding};
use crate::instructions::operation::{
    Alloca, Load, Operands, Operation, Store, WrittenCall, WrittenChoice, WrittenIncoming,
};
use std::mem::size_of;

const _: () = prove!(size_of::<Operation>() == 16);

const _: () = prove!(size_of::<Instruction>() == 56);

const _: () = prove!(size_of::<WrittenEnding>() == 80);

const _: () = prove!(size_of::<WrittenBlock>() == 144);

const _: () = prove!(size_of::<WrittenCase>() == 96);

const _: () = prove!(size_of::<WrittenIncoming>() == 72);

const _: () = prove!(size_of::<Operands>() == 112);

const _: () = prove!(size_of::<WrittenChoice>() == 216);

const _: () = prove!(size_of::<Load>() == 144);

const _: () = prove!(size_of::<Store>() == 184);

const _: () = prove!(size_of::<Alloca>() == 88);

const _: () = prove!(size_of::<WrittenCall>() == 136);
