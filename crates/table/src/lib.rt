// No code: the starred rows of the table of values, and the example of frame lines, computed from the definitions (specs/ and proofs/). The
// example's lines are answered by the code too, in a test.
#![tactic(auto)]

#[cfg(test)]
mod tests {
    use frames::inner::call::answered;
    use frames::limits::ANSWER_ROOM;

    // The lines of the example; and two that are malformed, for their length and for their last character.
    #[test]
    fn example_is_answered(rt: HostRuntime) {
        for (line, text) in [
            ("0100001303000E00080001", "010002000301000B01"),
            ("0200002503001700010001", "020000000000"),
            ("0200002503001F00010001", "0200010100180001"),
            ("01000015010001", "0102"),
            ("0100001303000E0008", "FF08"),
            ("0100001303000E0008000G", "FF08"),
        ] {
            let mut out = [0; ANSWER_ROOM];
            let n = answered(line.as_bytes()).put_text(&mut out);
            assert_eq!(rt; &out[..n], text.as_bytes(), "to {line}");
        }
    }
}
