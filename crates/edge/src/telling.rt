// Lines on standard error.

/// Writes a line on standard error. There is nobody to tell where that fails.
pub fn tell(rt: &impl Eprint, line: &str) {
    let _ = rt.eprintln(line);
}
