// Standard output, each write looked at.
use crate::say::say_errno;

// All of s goes to standard output: true; or a write fails, which is said in one line: false.
pub fn write(rt: &HostRuntime, program: &[u8], s: &[u8]) -> bool {
    match rt.write_all(s) {
        Ok(()) => true,
        Err(e) => {
            say_errno(rt, program, b"standard output", e);
            false
        }
    }
}
