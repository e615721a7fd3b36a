//! The pair table of the break rules, written by tools/make/pair-table from specs/Rules.

use crate::status::Break;
use crate::status::Break::{May, Must, No};

/// By state and column: the status of the boundary between them.
pub(crate) static STATUSES: [[Break; 45]; 80] = [
    // SP:
    [
        May, May, May, May, May, No, May, May, No, May, No, No, May, May, No, May, May, May, May,
        May, May, May, No, May, May, May, No, No, May, May, May, May, May, May, May, May, May, No,
        No, No, May, No, May, No, May,
    ],
    // B2 SP:
    [
        May, May, No, May, May, No, May, May, No, May, No, No, May, May, No, May, May, May, May,
        May, May, May, No, May, May, May, No, No, May, May, May, May, May, May, May, May, May, No,
        No, No, May, No, May, No, May,
    ],
    // CL SP:
    [
        May, May, May, May, May, No, May, No, No, May, No, No, May, May, No, May, May, May, May,
        May, May, May, No, May, May, May, No, No, No, May, May, May, May, May, May, May, May, No,
        No, No, May, No, May, No, May,
    ],
    // CP SP:
    [
        May, May, May, May, May, No, May, No, No, May, No, No, May, May, No, May, May, May, May,
        May, May, May, No, May, May, May, No, No, No, May, May, May, May, May, May, May, May, No,
        No, No, May, No, May, No, May,
    ],
    // OP SP:
    [No; 45],
    // QU SP:
    [
        May, May, May, May, May, No, May, May, No, May, No, No, May, May, No, May, May, May, May,
        May, May, May, No, May, May, May, No, No, May, May, No, May, May, May, May, May, May, No,
        No, No, May, No, May, No, No,
    ],
    // ZW SP:
    [
        May, May, May, May, May, No, May, May, May, May, May, No, May, May, May, May, May, May,
        May, May, May, May, May, May, May, May, No, No, May, May, May, May, May, May, May, May,
        May, No, May, May, May, No, May, May, May,
    ],
    // BK:
    [Must; 45],
    // CR:
    [
        Must, Must, Must, Must, Must, Must, Must, Must, Must, Must, Must, Must, Must, Must, Must,
        Must, Must, Must, Must, Must, Must, Must, Must, Must, Must, Must, No, Must, Must, Must,
        Must, Must, Must, Must, Must, Must, Must, Must, Must, Must, Must, Must, Must, Must, Must,
    ],
    // LF:
    [Must; 45],
    // NL:
    [Must; 45],
    // ZW:
    [
        May, May, May, May, May, No, May, May, May, May, May, No, May, May, May, May, May, May,
        May, May, May, May, May, May, May, May, No, No, May, May, May, May, May, May, May, May,
        May, No, May, May, May, No, May, May, May,
    ],
    // AL:
    [
        No, No, May, No, May, No, May, No, No, No, No, No, May, May, No, No, May, May, No, No, May,
        No, No, May, May, May, No, No, No, No, No, No, No, No, May, No, No, No, No, No, No, No, No,
        No, May,
    ],
    // B2:
    [
        May, May, No, No, May, No, May, No, No, No, No, No, May, May, No, No, May, May, May, No,
        May, No, No, May, May, May, No, No, No, May, May, May, May, No, May, May, May, No, No, No,
        May, No, No, No, May,
    ],
    // BA:
    [
        May, May, May, No, May, No, May, No, No, No, No, No, May, May, No, May, May, May, May, No,
        May, No, No, May, May, May, No, No, No, May, May, May, May, No, May, May, May, No, No, No,
        May, No, No, No, May,
    ],
    // BB:
    [
        No, No, No, No, No, No, May, No, No, No, No, No, No, No, No, No, No, No, No, No, No, No,
        No, No, No, No, No, No, No, No, No, No, No, No, No, No, No, No, No, No, No, No, No, No, No,
    ],
    // CB:
    [
        May, May, May, May, May, No, May, May, No, No, No, No, May, May, No, No, May, May, May,
        May, May, May, No, May, May, May, No, No, May, May, May, May, May, No, May, May, May, No,
        No, No, May, No, No, No, May,
    ],
    // CL:
    [
        May, May, May, No, May, No, May, No, No, No, No, No, May, May, No, No, May, May, May, No,
        May, No, No, May, May, May, No, No, No, May, May, No, No, No, May, May, May, No, No, No,
        May, No, No, No, May,
    ],
    // CP:
    [
        No, No, May, No, May, No, May, No, No, No, No, No, May, May, No, No, May, May, No, No, May,
        No, No, May, May, May, No, No, No, No, May, No, No, No, May, No, No, No, No, No, No, No,
        No, No, May,
    ],
    // EB:
    [
        May, May, May, No, May, No, May, No, No, No, No, No, May, No, No, No, May, May, May, No,
        May, No, No, May, May, May, No, No, No, May, May, No, May, No, May, May, May, No, No, No,
        May, No, No, No, May,
    ],
    // EM:
    [
        May, May, May, No, May, No, May, No, No, No, No, No, May, May, No, No, May, May, May, No,
        May, No, No, May, May, May, No, No, No, May, May, No, May, No, May, May, May, No, No, No,
        May, No, No, No, May,
    ],
    // EX:
    [
        May, May, May, No, May, No, May, No, No, No, No, No, May, May, No, No, May, May, May, No,
        May, No, No, May, May, May, No, No, No, May, May, May, May, No, May, May, May, No, No, No,
        May, No, No, No, May,
    ],
    // GL:
    [No; 45],
    // H2:
    [
        May, May, May, No, May, No, May, No, No, No, No, No, May, May, No, No, May, May, May, No,
        May, No, No, May, No, No, No, No, No, May, May, No, May, No, May, May, May, No, No, No,
        May, No, No, No, May,
    ],
    // H3:
    [
        May, May, May, No, May, No, May, No, No, No, No, No, May, May, No, No, May, May, May, No,
        May, No, No, May, No, May, No, No, No, May, May, No, May, No, May, May, May, No, No, No,
        May, No, No, No, May,
    ],
    // HL:
    [
        No, No, May, No, May, No, May, No, No, No, No, No, May, May, No, No, May, May, No, No, May,
        No, No, May, May, May, No, No, No, No, No, No, No, No, May, No, No, No, No, No, No, No, No,
        No, May,
    ],
    // HY:
    [
        May, May, May, No, May, No, May, No, No, No, No, No, May, May, No, May, May, May, May, No,
        May, No, No, May, May, May, No, No, No, No, May, May, May, No, May, May, May, No, No, No,
        May, No, No, No, May,
    ],
    // ID:
    [
        May, May, May, No, May, No, May, No, No, No, No, No, May, May, No, No, May, May, May, No,
        May, No, No, May, May, May, No, No, No, May, May, No, May, No, May, May, May, No, No, No,
        May, No, No, No, May,
    ],
    // IN:
    [
        May, May, May, No, May, No, May, No, No, No, No, No, May, May, No, No, May, May, May, No,
        May, No, No, May, May, May, No, No, No, May, May, May, May, No, May, May, May, No, No, No,
        May, No, No, No, May,
    ],
    // IS:
    [
        No, No, May, No, May, No, May, No, No, No, No, No, May, May, No, No, May, May, No, No, May,
        No, No, May, May, May, No, No, No, No, May, May, May, No, May, No, No, No, No, No, No, No,
        No, No, May,
    ],
    // JL:
    [
        May, May, May, No, May, No, May, No, No, No, No, No, May, May, No, No, No, No, May, No,
        May, No, No, No, May, No, No, No, No, May, May, No, May, No, May, May, May, No, No, No,
        May, No, No, No, May,
    ],
    // JT:
    [
        May, May, May, No, May, No, May, No, No, No, No, No, May, May, No, No, May, May, May, No,
        May, No, No, May, No, May, No, No, No, May, May, No, May, No, May, May, May, No, No, No,
        May, No, No, No, May,
    ],
    // JV:
    [
        May, May, May, No, May, No, May, No, No, No, No, No, May, May, No, No, May, May, May, No,
        May, No, No, May, No, No, No, No, No, May, May, No, May, No, May, May, May, No, No, No,
        May, No, No, No, May,
    ],
    // NS:
    [
        May, May, May, No, May, No, May, No, No, No, No, No, May, May, No, No, May, May, May, No,
        May, No, No, May, May, May, No, No, No, May, May, May, May, No, May, May, May, No, No, No,
        May, No, No, No, May,
    ],
    // NU:
    [
        No, No, May, No, May, No, May, No, No, No, No, No, May, May, No, No, May, May, No, No, May,
        No, No, May, May, May, No, No, No, No, No, No, No, No, May, No, No, No, No, No, No, No, No,
        No, May,
    ],
    // OP:
    [No; 45],
    // PO:
    [
        No, No, May, No, May, No, May, No, No, No, No, No, May, May, No, No, May, May, No, No, May,
        No, No, May, May, May, No, No, No, No, No, May, May, No, May, No, No, No, No, No, No, No,
        No, No, No,
    ],
    // PR:
    [
        No, No, May, No, May, No, May, No, No, No, No, No, No, No, No, No, No, No, No, No, No, No,
        No, No, No, No, No, No, No, No, No, May, May, No, May, No, No, No, No, No, No, No, No, No,
        No,
    ],
    // QU:
    [No; 45],
    // RI:
    [
        May, May, May, No, May, No, May, No, No, No, No, No, May, May, No, No, May, May, May, No,
        May, No, No, May, May, May, No, No, No, May, May, May, May, No, No, May, May, No, No, No,
        May, No, No, No, May,
    ],
    // SY:
    [
        May, May, May, No, May, No, May, No, No, No, No, No, May, May, No, No, May, May, No, No,
        May, No, No, May, May, May, No, No, No, No, May, May, May, No, May, May, May, No, No, No,
        May, No, No, No, May,
    ],
    // WJ:
    [No; 45],
    // CP WIDE:
    [
        May, May, May, No, May, No, May, No, No, No, No, No, May, May, No, No, May, May, May, No,
        May, No, No, May, May, May, No, No, No, May, May, No, No, No, May, May, May, No, No, No,
        May, No, No, No, May,
    ],
    // RI RI:
    [
        May, May, May, No, May, No, May, No, No, No, No, No, May, May, No, No, May, May, May, No,
        May, No, No, May, May, May, No, No, No, May, May, May, May, No, May, May, May, No, No, No,
        May, No, No, No, May,
    ],
    // HL BA:
    [
        No, No, No, No, No, No, May, No, No, No, No, No, No, No, No, No, No, No, No, No, No, No,
        No, No, No, No, No, No, No, No, No, No, No, No, No, No, No, No, No, No, No, No, No, No, No,
    ],
    // HL HY:
    [
        No, No, No, No, No, No, May, No, No, No, No, No, No, No, No, No, No, No, No, No, No, No,
        No, No, No, No, No, No, No, No, No, No, No, No, No, No, No, No, No, No, No, No, No, No, No,
    ],
    // AL ZWJ:
    [No; 45],
    // B2 ZWJ:
    [No; 45],
    // BA ZWJ:
    [No; 45],
    // BB ZWJ:
    [No; 45],
    // CB ZWJ:
    [No; 45],
    // CL ZWJ:
    [No; 45],
    // CP ZWJ:
    [No; 45],
    // EB ZWJ:
    [No; 45],
    // EM ZWJ:
    [No; 45],
    // EX ZWJ:
    [No; 45],
    // GL ZWJ:
    [No; 45],
    // H2 ZWJ:
    [No; 45],
    // H3 ZWJ:
    [No; 45],
    // HL ZWJ:
    [No; 45],
    // HY ZWJ:
    [No; 45],
    // ID ZWJ:
    [No; 45],
    // IN ZWJ:
    [No; 45],
    // IS ZWJ:
    [No; 45],
    // JL ZWJ:
    [No; 45],
    // JT ZWJ:
    [No; 45],
    // JV ZWJ:
    [No; 45],
    // NS ZWJ:
    [No; 45],
    // NU ZWJ:
    [No; 45],
    // OP ZWJ:
    [No; 45],
    // PO ZWJ:
    [No; 45],
    // PR ZWJ:
    [No; 45],
    // QU ZWJ:
    [No; 45],
    // RI ZWJ:
    [No; 45],
    // SY ZWJ:
    [No; 45],
    // WJ ZWJ:
    [No; 45],
    // CP WIDE ZWJ:
    [No; 45],
    // RI RI ZWJ:
    [No; 45],
    // HL BA ZWJ:
    [No; 45],
    // HL HY ZWJ:
    [No; 45],
];
