// What the two programs print of a tape.
#![tactic(auto)]

ghost use Rattle.std.specs.Prelude.{◌≡◌};
ghost use Rattle.lines.specs.Line.{line_in};
ghost use Rattle.answer_lines.specs.Lines.{Prints};
ghost use Rattle.programs.specs.Lines.{judge_numbers, walk_numbers};

// What the judging program prints.
pub fn judge_line(tape: &[u8]) -> lines::Line
    ensures line { result ≡ line_in (judge_numbers tape.now) }
    ensures prints { Prints result (judge_numbers tape.now) }
{
    answer_lines::places(judge_tape::judge_tape(tape))
}

// What the walk program prints.
pub fn walk_line(tape: &[u8], input: &[u8]) -> lines::Line
    ensures line { result ≡ line_in (walk_numbers tape.now input.now) }
    ensures prints { Prints result (walk_numbers tape.now input.now) }
{
    answer_lines::moves(walk_tape::walk_tape(
        tape,
        input::direction_in(input),
        input::start_in(input),
    ))
}
