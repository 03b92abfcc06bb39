//! How many bytes these values have: a pass none, a parcel those of its message. The check of the crate evaluates each line.

use crate::numbered::Numbered;
use crate::tokens::{Parcel, Pass};
use std::marker::Brand;
use std::mem::size_of;

const _: () = prove!(size_of::<Pass<u32, Brand>>() == 0);

const _: () = prove!(size_of::<Parcel<u32, Brand>>() == 4);

const _: () = prove!(size_of::<Parcel<u64, Brand>>() == 8);

const _: () = prove!(size_of::<Parcel<Numbered<u64>, Brand>>() == 24);
