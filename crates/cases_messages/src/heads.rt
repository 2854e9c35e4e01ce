//! Where heads end, and what they say.
use zot_cases::Answer;
use zot_head::{FieldList, Found, HeadError, find_head, read_head};

/// What is known of where the head ends, and from how many bytes on, however the bytes are cut.
pub fn front(answer: &mut Answer, bytes: &[u8]) {
    let mut known = Found::More;
    let mut from = 0;
    for cut in 0..bytes.len() + 1 {
        if is_cut(cut, bytes.len()) {
            let found = find_head(&bytes[..cut]);
            if known == Found::More {
                known = found;
                from = cut;
            }
            answer.confirm(found == known, "known otherwise with more bytes");
        }
    }
    answer.show(&(known, from));
}

/// What a head says of its body and its connection, where no fewer bytes are a head; and where it is found to end.
pub fn head(answer: &mut Answer, bytes: &[u8]) {
    for cut in 0..bytes.len() {
        if is_cut(cut, bytes.len()) {
            let read = read_head(answer.alloc(), &bytes[..cut]);
            answer.confirm(
                matches!(read, Err(HeadError::Bad)),
                "fewer bytes are a head",
            );
        }
    }
    says(answer, bytes);
    answer.say("; ");
    front(answer, bytes);
}

/// What these bytes say as a head: the framing, whether a `100 Continue` is owed, and whether the connection closes.
pub fn says(answer: &mut Answer, bytes: &[u8]) {
    match read_head(answer.alloc(), bytes) {
        Ok(head) => answer.show(&(head.framing, head.expects, head.closes)),
        Err(error) => answer.show(&error),
    }
}

/// The method, the target and the fields.
pub fn parts(answer: &mut Answer, bytes: &[u8]) {
    let Ok(head) = read_head(answer.alloc(), bytes) else {
        return answer.fail("no head");
    };
    answer.say(head.method.as_str());
    answer.say(" ");
    answer.say(head.target.as_str());
    let fields = FieldList::new(head.fields.into_vec());
    answer.show(&fields.as_slice());
}

/// Whether so many bytes are cut at this place: few at each place, many at each near their ends and at every 61st.
pub fn is_cut(place: usize, len: usize) -> bool {
    len < 1_000 || place < 300 || len.saturating_sub(place) < 300 || place % 61 == 0
}
