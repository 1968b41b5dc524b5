// The line of an answer, and of a walk.
#![tactic(auto)]

ghost use Rattle.std.specs.Prelude.{◌≡◌};
ghost use Rattle.lines.specs.Line.{line_in};
ghost use Rattle.answer_lines.specs.Lines.{places_of, moves_of, Prints};

// An answer's line: number and three places.
pub fn places(a: answers::Answer) -> lines::Line
    ensures line { result ≡ line_in (places_of a) }
    ensures prints { Prints result (places_of a) }
{
    lines::line4(
        lines::number_of(usize::from(a.number)),
        lines::number_of(a.first),
        lines::number_of(a.second),
        lines::number_of(a.third),
    )
}

// A walk's line: number, vertex, height, moves.
pub fn moves(w: walk::Walked) -> lines::Line
    ensures line { result ≡ line_in (moves_of w) }
    ensures prints { Prints result (moves_of w) }
{
    let answer = w.answer;
    let height = w.height;
    lines::line4(
        lines::number_of(usize::from(answer.number)),
        lines::number_of(usize::from(w.vertex)),
        height,
        lines::number_of(w.moves),
    )
}
