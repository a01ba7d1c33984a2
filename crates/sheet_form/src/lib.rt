// The correction sheet's form: 02, CR 7. What its header says; all else is in the definitions.
#![tactic(auto)]

// The content of a sheet's first field.
#[derive(Clone, Copy)]
pub struct Header {
    pub prn: u8,
    pub ssr: u8,
    pub iodp: u8,
    pub rows: u16,
}
