// The line of a message or a frame: its PRN and contents, or where and what was expected.
use crate::parts::{
    bias_part, clock_part, code_part, first_clocks, mask_part, maybe_orbits, orbit_part,
    slotted_clocks,
};
use crate::reader::{Fault, Reader};
use contents::parts::{Contents, no_contents};

// The contents of type 1.
fn mask(r: &mut Reader) -> Result<Contents, Fault> {
    let mask = mask_part(r)?;
    Ok(Contents {
        kind: 1,
        mask,
        ..no_contents()
    })
}

// The contents of type 2.
fn orbits(r: &mut Reader) -> Result<Contents, Fault> {
    let orbit = orbit_part(r, b"epoch", b"ssr", 6, 6)?;
    Ok(Contents {
        kind: 2,
        orbit,
        ..no_contents()
    })
}

// The contents of type 3.
fn biases(r: &mut Reader) -> Result<Contents, Fault> {
    let bias = bias_part(r)?;
    Ok(Contents {
        kind: 3,
        bias,
        ..no_contents()
    })
}

// The contents of type 4.
fn clocks(r: &mut Reader) -> Result<Contents, Fault> {
    let clock = clock_part(r, b"epoch", b"ssr", b"sub", 23, 23)?;
    Ok(Contents {
        kind: 4,
        clock,
        ..no_contents()
    })
}

// The contents of type 5.
fn codes(r: &mut Reader) -> Result<Contents, Fault> {
    let code = code_part(r)?;
    Ok(Contents {
        kind: 5,
        code,
        ..no_contents()
    })
}

// The contents of types 6 and 7.
fn clocks_and_orbits(r: &mut Reader, kind: u8) -> Result<Contents, Fault> {
    let clock = if kind == 6 {
        first_clocks(r)?
    } else {
        slotted_clocks(r)?
    };
    let orbit = maybe_orbits(r)?;
    Ok(Contents {
        kind,
        clock,
        orbit,
        ..no_contents()
    })
}

// The contents of a type; no part of one that is not written.
fn contents_of(r: &mut Reader, kind: u8) -> Result<Contents, Fault> {
    match kind {
        1 => mask(r),
        2 => orbits(r),
        3 => biases(r),
        4 => clocks(r),
        5 => codes(r),
        6 | 7 => clocks_and_orbits(r, kind),
        _ => Ok(Contents {
            kind,
            ..no_contents()
        }),
    }
}

// The line of a message, or of a frame, which begins with its PRN.
pub(crate) fn read_line(s: &[u8], frames: bool) -> Result<(u8, Contents), Fault> {
    let mut r = Reader::new(s);
    let prn = if frames { r.byte(b"prn")? } else { 0 };
    let kind = r.byte(b"type")?;
    let contents = contents_of(&mut r, kind)?;
    r.end()?;
    Ok((prn, contents))
}
