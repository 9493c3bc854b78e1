//! Laws of reads of devices' memory: they are answered in order, each from the memory of its interface as it is then;
//! which are queued, blocked and dropped; that no guarded byte leaves its device but in the RUN that asked for it; and
//! where trusted reads, and what answers them, come from (PCI Express Base 6.0 chapter 11, in this profile).
#![tactic(auto)]

mod laws;

pub use laws::{
    device_effect_law, device_read_cases, device_read_law, device_read_origin_law, exposure_law,
    respond_law, response_origin_law,
};
