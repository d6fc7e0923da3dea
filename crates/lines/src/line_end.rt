// What stands at the end of a line.
ghost use Rattle.std.specs.Prelude.{◌≡◌};
ghost use Rattle.lines.specs.Ends.{without_return};

// The line without the carriage return at its end, if it has one.
pub fn strip_return(line: &str) -> &str
    ensures { result.now ≡ without_return line.now }
{
    line.strip_suffix('\r').unwrap_or(line)
}
