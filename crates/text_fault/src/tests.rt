use super::sentence;
use chart_rules::TextRefusal::{
    BadLine, BadNames, BadResult, BadSample, BadWeek, ShortBuffer, TooLong,
};
use chart_rules::{RefusedText, TextRefusal};
use std::alloc::{AllocError, Global};
use std::test::Fail;

const NAMES: &str = "week sample original monitor\n";

// A whole text, its refusal and its text line, and the sentence.
const TEXTS: [(&str, TextRefusal, u32, &str); 7] = [
    (
        "",
        TooLong,
        0,
        "the text is longer than 65536 bytes: take out the oldest weeks",
    ),
    (
        "",
        ShortBuffer,
        0,
        "the output is longer than its buffer: chart fewer weeks at a time",
    ),
    (
        "",
        BadNames,
        1,
        "line 1: \"\": the text is empty, begin it with the line week sample original monitor (column 1)",
    ),
    (
        "\u{feff}week sample original monitor\n",
        BadNames,
        1,
        "line 1: \"\\xef\\xbb\\xbfweek sample original monitor\": \
         save the file without a byte order mark in front (column 1)",
    ),
    (
        "week sample original monitor\r\n26 1 1315 1307\r\n",
        BadNames,
        1,
        "line 1: \"week sample original monitor\\x0d\": \
         save the file with line feeds alone, as on Unix (column 29)",
    ),
    (
        "week sample original monitor",
        BadNames,
        1,
        "line 1: \"week sample original monitor\": end the line with a line feed (column 29)",
    ),
    (
        "week  sample original monitor\n26 1 1315 1307\n",
        BadNames,
        1,
        "line 1: \"week  sample original monitor\": \
         write week sample original monitor, in these letters, with single spaces (column 6)",
    ),
];

// Value lines of which the first is none, and the sentence behind `line 2: `.
const VALUE_LINES: [(&str, &str); 28] = [
    (
        "26 1 1315 1307",
        "\"26 1 1315 1307\": end the line with a line feed; was the last line cut short? (column 15)",
    ),
    (
        "26 1 13",
        "\"26 1 13\": the text ends here: write four numbers and a line feed (column 8, original)",
    ),
    (
        "26 1 1315 1307\r\n",
        "\"26 1 1315 1307\\x0d\": save the file with line feeds alone, as on Unix (column 15)",
    ),
    (
        "\n26 1 1315 1307\n",
        "\"\": remove the empty line (column 1)",
    ),
    (
        "26 1 13.15 1307\n",
        "\"26 1 13.15 1307\": write hundredths without a point, 1315 (column 8, original)",
    ),
    (
        "26 1 1315 13,5\n",
        "\"26 1 1315 13,5\": write hundredths without a comma, 1350 (column 13, monitor)",
    ),
    (
        "26 1 13. 1307\n",
        "\"26 1 13. 1307\": write hundredths without a point, 1300 (column 8, original)",
    ),
    (
        "26 1 .95 1307\n",
        "\"26 1 .95 1307\": write hundredths without a point, 95 (column 6, original)",
    ),
    (
        "26 1 13.155 1307\n",
        "\"26 1 13.155 1307\": write hundredths without a point (column 8, original)",
    ),
    (
        "26 1 113.15 1307\n",
        "\"26 1 113.15 1307\": write hundredths without a point (column 9, original)",
    ),
    (
        "26 1 1.3.15 1307\n",
        "\"26 1 1.3.15 1307\": write hundredths without a point (column 7, original)",
    ),
    (
        "26.0 1 1315 1307\n",
        "\"26.0 1 1315 1307\": write the week as a whole number (column 3, week)",
    ),
    (
        "26,1,1315,1307\n",
        "\"26,1,1315,1307\": write single spaces between the numbers (column 3)",
    ),
    (
        "26 1 -15 1307\n",
        "\"26 1 -15 1307\": write no minus, a number is 0 or more (column 6, original)",
    ),
    (
        "26\t1\t1315\t1307\n",
        "\"26\\x091\\x091315\\x091307\": write single spaces between the numbers (column 3)",
    ),
    (
        "26 1  1315 1307\n",
        "\"26 1  1315 1307\": write single spaces between the numbers (column 6)",
    ),
    (
        " 26 1 1315 1307\n",
        "\" 26 1 1315 1307\": remove the space or tab in front (column 1)",
    ),
    (
        "\t26 1 1315 1307\n",
        "\"\\x0926 1 1315 1307\": remove the space or tab in front (column 1)",
    ),
    (
        "26 1 1315 1307 \n",
        "\"26 1 1315 1307 \": remove the space or tab at the end (column 15)",
    ),
    (
        "26 07 1315 1307\n",
        "\"26 07 1315 1307\": write 7, not 07 (column 5, sample)",
    ),
    (
        "26 1 013.5 1307\n",
        "\"26 1 013.5 1307\": write the number without a zero in front (column 7, original)",
    ),
    (
        "26 1 131515 1307\n",
        "\"26 1 131515 1307\": write at most five digits (column 11, original)",
    ),
    (
        "26 1 1315\n",
        "\"26 1 1315\": write four numbers, the monitor is missing (column 10, monitor)",
    ),
    (
        "26 1 \n",
        "\"26 1 \": write four numbers, the original is missing (column 6, original)",
    ),
    (
        "26 1 1315 1307 1\n",
        "\"26 1 1315 1307 1\": write four numbers alone (column 15)",
    ),
    (
        "26 1 1315;1307\n",
        "\"26 1 1315;1307\": write digits alone, with single spaces between the numbers (column 10, original)",
    ),
    (
        "26 1 13\u{e9}5 1307\n",
        "\"26 1 13\\xc3\\xa95 1307\": \
         write digits alone, with single spaces between the numbers (column 8, original)",
    ),
    (
        "26 1 x234567890123456789012345678901234567890123456789012345 7890\n",
        "\"26 1 x234567890123456789012345678901234567890123456789012345..\": \
         write digits alone, with single spaces between the numbers (column 6, original)",
    ),
];

// Value lines, their refusal and its text line, and the sentence.
const RULINGS: [(&str, TextRefusal, u32, &str); 8] = [
    (
        "26 2 1315 1307\n",
        BadSample,
        2,
        "line 2: \"26 2 1315 1307\": \
         sample 2 of week 26 cannot come here: the first line has sample 1 (column 4, sample)",
    ),
    (
        "26 1 1315 1307\n26 2 1018 1054\n26 4 1447 1479\n",
        BadSample,
        4,
        "line 4: \"26 4 1447 1479\": sample 4 of week 26 cannot come here: \
         sample 3 comes next in week 26, or sample 1 of a later week (column 4, sample)",
    ),
    (
        "26 1 1 1\n26 2 1 1\n26 3 1 1\n26 4 1 1\n26 5 1 1\n26 6 1 1\n",
        BadSample,
        7,
        "line 7: \"26 6 1 1\": sample 6 of week 26 cannot come here: \
         sample 1 of a later week comes next (column 4, sample)",
    ),
    (
        "26 1 1315 1307\n25 1 1315 1307\n",
        BadWeek,
        3,
        "line 3: \"25 1 1315 1307\": week 25 does not come after week 26; \
         weeks go on rising over the year's end, after 2652 comes 2701 (column 1, week)",
    ),
    (
        "0 1 1315 1307\n",
        BadWeek,
        2,
        "line 2: \"0 1 1315 1307\": week 0 does not exist, write week 1 or above (column 1, week)",
    ),
    (
        "10000 1 1315 1307\n",
        BadWeek,
        2,
        "line 2: \"10000 1 1315 1307\": week 10000 does not exist, write week 9999 or below (column 1, week)",
    ),
    (
        "26 1 10001 1307\n",
        BadResult,
        2,
        "line 2: \"26 1 10001 1307\": write at most 10000, which is 100.00 percent (column 6, original)",
    ),
    (
        "26 1 10000 10001\n",
        BadResult,
        2,
        "line 2: \"26 1 10000 10001\": write at most 10000, which is 100.00 percent (column 12, monitor)",
    ),
];

// What is said of a text of these lines, which is refused.
fn said(alloc: Global, lines: &str, refused: RefusedText) -> Result<String, AllocError> {
    let mut text = String::from_str(alloc, NAMES)?;
    text.push_str(lines)?;
    sentence(alloc, text.as_bytes(), refused)
}

#[test]
fn texts_and_names(rt: HostRuntime) -> Result<(), Fail> {
    for (text, refusal, line, words) in TEXTS {
        let answer = sentence(rt.alloc(), text.as_bytes(), refusal.at_line(line))?;
        assert_eq!(rt; answer.as_str(), words);
    }
    Ok(())
}

#[test]
fn value_lines(rt: HostRuntime) -> Result<(), Fail> {
    for (lines, words) in VALUE_LINES {
        let answer = said(rt.alloc(), lines, BadLine.at_line(2))?;
        assert_eq!(rt; answer.as_str().strip_prefix("line 2: "), Some(words));
    }
    Ok(())
}

#[test]
fn rulings(rt: HostRuntime) -> Result<(), Fail> {
    for (lines, refusal, line, words) in RULINGS {
        let answer = said(rt.alloc(), lines, refusal.at_line(line))?;
        assert_eq!(rt; answer.as_str(), words);
    }
    Ok(())
}
