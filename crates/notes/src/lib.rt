// What the functions for Rust and C tell of an answer: its number is returned, and its other values are noted in `out`.
#![tactic(auto)]

ghost use Rattle.reading.specs.Answer.{answer_number};
ghost use Rattle.notes.specs.Out.{NumberAndNotes, places, course, counts, place, extent};

// The judge's answer, or the tape writer's: the three places.
pub fn note_answer(out: &mut [i64], answer: answers::Answer) -> u16
    ensures { NumberAndNotes answer.number (places answer) out.old out.new result }
{
    out::note_places(out, answer.first, answer.second, answer.third);
    answer.number
}

// The walk's: the judge's three places, then vertex, height and moves.
pub fn note_walked(out: &mut [i64], walked: walk::Walked) -> u16
    ensures { NumberAndNotes walked.answer.number (course walked) out.old out.new result }
{
    let answer = walked.answer;
    let numbers = [
        lines::number_of(answer.first),
        lines::number_of(answer.second),
        lines::number_of(answer.third),
        lines::number_of(tables::wide(walked.vertex)),
        walked.height,
        lines::number_of(walked.moves),
    ];
    out::note(out, &numbers);
    answer.number
}

// The outline judge's: the place or the count.
pub fn note_verdict(out: &mut [i64], verdict: outline::Verdict) -> u16
    ensures { NumberAndNotes verdict.number (place verdict) out.old out.new result }
{
    let numbers = [lines::number_of(verdict.place)];
    out::note(out, &numbers);
    verdict.number
}

// A reader's: V, F and corners, or the offset and zeros.
pub fn note_reading(out: &mut [i64], read: Result<reading::Counts, reading::Refused>) -> u16
    ensures { NumberAndNotes (answer_number read) (counts read) out.old out.new result }
{
    match read {
        Ok(counts) => {
            out::note_places(out, counts.vertices, counts.facets, counts.corners);
            0
        }
        Err(refused) => {
            out::note_places(out, refused.offset, 0, 0);
            refused.number
        }
    }
}

// The facet look-up's: where its part begins in the run, and how many corners it has. It "carries no number": 0.
pub fn note_part(out: &mut [i64], begin: usize, sides: usize) -> u16
    ensures { NumberAndNotes 0 (extent begin sides) out.old out.new result }
{
    let numbers = [lines::number_of(begin), lines::number_of(sides)];
    out::note(out, &numbers);
    0
}
