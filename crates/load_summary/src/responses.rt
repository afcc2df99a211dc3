// Responses of a transcript, counted.
ghost use Rattle.std.specs.Prelude.{◌≡◌, position};
ghost use Rattle.std.specs.List.{after_first};
ghost use Rattle.load_summary.specs.Counts.{is_mark, is_of_200, is_of_another, is_response, lines_that};

fn is_response(line: &[u8]) -> bool
    ensures { result ≡ is_response line.now }
{
    line.starts_with(b"resp ")
}

fn first_mark(line: &[u8]) -> Option<usize>
    ensures { result ≡ position is_mark line.now }
{
    line.iter().position(|byte| *byte == b'"')
}

/// What stands behind the line's first quotation mark.
fn behind_mark(line: &[u8]) -> &[u8]
    ensures { result.now ≡ after_first is_mark line.now }
{
    match first_mark(line) {
        Some(place) => &line[place + 1..],
        None => &[],
    }
}

#[tactic(auto, unfolding(crate::specs::Counts::is_of_200))]
fn is_of_200(line: &[u8]) -> bool
    ensures { result ≡ is_of_200 line.now }
{
    is_response(line) && behind_mark(line).starts_with(b"HTTP/1.1 200")
}

#[tactic(auto, unfolding(crate::specs::Counts::is_of_another))]
fn is_of_another(line: &[u8]) -> bool
    ensures { result ≡ is_of_another line.now }
{
    is_response(line) && !is_of_200(line)
}

pub(crate) fn of_200_in(transcript: &[u8]) -> usize
    ensures { result ≡ lines_that is_of_200 transcript.now }
{
    transcript
        .split(|byte| *byte == b'\n')
        .filter(|line| is_of_200(line))
        .count()
}

pub(crate) fn of_others_in(transcript: &[u8]) -> usize
    ensures { result ≡ lines_that is_of_another transcript.now }
{
    transcript
        .split(|byte| *byte == b'\n')
        .filter(|line| is_of_another(line))
        .count()
}
