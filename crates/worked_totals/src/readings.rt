// The readings of the examples, in standard order of the runs, as whole numbers. `reference/published/examples.py` has the figures that the
// sources print.
//
//   report   J. M. Cameron, Computing the analysis of variance of factorial experiments on automatic computers, NBS Report 3950, 1955
//   AMCP     Engineering Design Handbook, Experimental Statistics, Section 3, AMCP 706-112, 1969, chapter 12
//   Yates    F. Yates, The design and analysis of factorial experiments, Technical Communication 35, 1937
//   Daniel   C. Daniel, Applications of statistics to industrial experimentation, 1976
//   rules    the rules' own reference runs

// Report, Section 1, example for n = 4.
const REPORT_TWO_LEVELS: [i32; 16] = [
    60, 20, 83, 59, 19, 77, 13, 39, 5, 26, 27, 85, 25, 47, 86, 76,
];

// AMCP, Data Sample 12-2, in tenths.
const AMCP_WHOLE: [i32; 16] = [
    42, 31, 45, 29, 39, 28, 46, 32, 40, 30, 50, 25, 40, 25, 50, 23,
];

// AMCP, Data Sample 12-4, in tenths.
const AMCP_HALF: [i32; 8] = [42, 30, 50, 29, 40, 28, 46, 23];

// Yates, Section 3, Table 7: sums of four plots.
const YATES_POTATOES: [i32; 8] = [425, 426, 1118, 1203, 1283, 1396, 1673, 1807];

// Yates, Section 7, Table 22, in tenths.
const YATES_BEANS: [i32; 32] = [
    665, 362, 748, 547, 680, 233, 673, 705, 567, 299, 767, 498, 363, 457, 608, 646, 636, 393, 513,
    733, 712, 605, 737, 925, 496, 743, 636, 563, 480, 479, 770, 613,
];

// Yates, Section 8b, Table 28: sums of four plots.
const YATES_SUGAR_BEET: [i32; 8] = [2461, 2509, 2354, 2363, 2335, 2415, 2510, 2482];

// Yates, Section 9d, Table 38: sums of three plots in each of three columns, and of nine in the last.
const YATES_TABLE_38_N0: [i32; 4] = [411, 444, 561, 657];

const YATES_TABLE_38_N1: [i32; 4] = [479, 578, 659, 645];

const YATES_TABLE_38_N2: [i32; 4] = [451, 517, 546, 601];

const YATES_TABLE_38_TOTAL: [i32; 4] = [1341, 1539, 1766, 1903];

// Daniel, Table 3.5.
const DANIEL_SAMPLE: [i32; 4] = [67, 43, 81, 61];

// Daniel, Table 5.1.
const DANIEL_CEMENT: [i32; 8] = [297, 300, 106, 131, 177, 178, 76, 109];

// Daniel, Table 6.1, in hundredths.
const DANIEL_DRILL: [i32; 16] = [
    168, 198, 328, 344, 498, 570, 997, 907, 207, 244, 409, 453, 777, 943, 1175, 1630,
];

// Daniel, Table 7.9: the yields less 110.
const DANIEL_MANGOLDS: [i32; 32] = [
    -36, 1, -21, -9, -32, 6, -41, -12, -32, 8, -14, 21, -10, 28, -24, 19, 15, 8, -9, 18, -20, 23,
    -26, 26, 0, 28, -10, 22, -9, 37, 0, 41,
];

// Daniel, Table 12.5, in tenths.
const DANIEL_QUARTER: [i32; 8] = [591, 570, 586, 639, 672, 716, 792, 769];

// Report, Section 2, example for n = 4.
const REPORT_THREE_LEVELS: [i32; 81] = [
    5, 6, 3, 6, 9, 6, 8, 5, 3, 6, 7, 8, 4, 9, 4, 5, 2, 9, 3, 7, 8, 3, 1, 5, 5, 5, 3, 3, 9, 4, 8, 1,
    7, 7, 3, 5, 2, 2, 9, 9, 4, 2, 7, 6, 9, 6, 7, 4, 5, 6, 5, 3, 6, 4, 5, 1, 1, 2, 2, 2, 6, 2, 2, 6,
    4, 7, 9, 8, 7, 3, 3, 8, 2, 9, 1, 8, 4, 4, 7, 5, 3,
];

// Yates, Section 11c, Table 46: sums of six plots, in tenths.
const YATES_TWO_OF_THREE: [i32; 9] = [2564, 2646, 2178, 2511, 2399, 2477, 2353, 2273, 2222];

// Yates, Section 12, Table 44, in tenths.
const YATES_FIRST_REPLICATION: [i32; 27] = [
    478, 478, 380, 446, 371, 471, 354, 472, 352, 457, 525, 460, 497, 527, 382, 514, 365, 462, 505,
    430, 441, 509, 493, 522, 560, 454, 342,
];

// Yates, Section 10b, Table 45: sums of two plots, in tenths.
const YATES_BOTH_REPLICATIONS: [i32; 27] = [
    872, 842, 712, 779, 701, 806, 611, 796, 665, 851, 943, 726, 863, 869, 735, 863, 709, 838, 841,
    861, 740, 869, 829, 936, 879, 768, 719,
];

// Rules, reference runs.
const RULES_TWO_FACTORS: [i32; 4] = [3, 5, 4, 8];

const RULES_THREE_LEVELS: [i32; 3] = [2, 5, 3];

const RULES_BLOCKS: [i32; 8] = [1, 2, 3, 4, 5, 6, 7, 8];

const RULES_ONE_FACTOR: [i32; 2] = [-100000, 100000];

// Yates, Section 2, Table 1: the plots of each run, of the blocks I to IV.
const POTATO_PLOTS: [i32; 32] = [
    101, 106, 87, 131, 106, 89, 128, 103, 265, 272, 279, 302, 291, 306, 334, 272, 312, 324, 323,
    324, 373, 338, 324, 361, 398, 407, 423, 445, 450, 449, 471, 437,
];

// Yates, Section 8b, Table 28: the plots of each run.
const SUGAR_BEET_SINGLE: [i32; 32] = [
    594, 596, 643, 628, 587, 634, 637, 651, 583, 604, 549, 618, 634, 562, 562, 605, 542, 609, 569,
    615, 629, 624, 576, 586, 615, 627, 623, 645, 576, 638, 629, 639,
];

// Yates, Section 10b, Table 44: the plots of each run, of both replications, in tenths.
const BEET_PLOTS: [i32; 54] = [
    478, 394, 478, 364, 380, 332, 446, 333, 371, 330, 471, 335, 354, 257, 472, 324, 352, 313, 457,
    394, 525, 418, 460, 266, 497, 366, 527, 342, 382, 353, 514, 349, 365, 344, 462, 376, 505, 336,
    430, 431, 441, 299, 509, 360, 493, 336, 522, 414, 560, 319, 454, 314, 342, 377,
];

// Daniel, Table 3.7: the sums of the runs, and the plots of each, of the blocks I to IV.
const DANIEL_BUDS_SUMS: [i32; 4] = [288, 82, 146, 75];

const DANIEL_BUDS: [i32; 16] = [
    64, 75, 76, 73, 23, 14, 12, 33, 30, 50, 41, 25, 15, 33, 17, 10,
];

// An example: its levels, factors and repeats, the sums of its runs, and all readings.
#[derive(Clone, Copy)]
pub struct Example {
    pub levels: u8,
    pub k: u8,
    pub repeats: u8,
    pub sums: &'static [i32],
    pub readings: &'static [i32],
}

// An example whose runs are made once.
fn once(levels: u8, k: u8, readings: &'static [i32]) -> Example {
    repeated(levels, k, 1, readings, readings)
}

// An example whose runs are made so often.
fn repeated(
    levels: u8,
    k: u8,
    repeats: u8,
    sums: &'static [i32],
    readings: &'static [i32],
) -> Example {
    Example {
        levels,
        k,
        repeats,
        sums,
        readings,
    }
}

// The examples, by their numbers from 1.
pub fn examples() -> [Example; 27] {
    [
        once(2, 4, &REPORT_TWO_LEVELS),
        once(2, 4, &AMCP_WHOLE),
        once(2, 3, &AMCP_HALF),
        once(2, 3, &YATES_POTATOES),
        once(2, 5, &YATES_BEANS),
        once(2, 3, &YATES_SUGAR_BEET),
        once(2, 2, &YATES_TABLE_38_N0),
        once(2, 2, &YATES_TABLE_38_N1),
        once(2, 2, &YATES_TABLE_38_N2),
        once(2, 2, &YATES_TABLE_38_TOTAL),
        once(2, 2, &DANIEL_SAMPLE),
        once(2, 3, &DANIEL_CEMENT),
        once(2, 4, &DANIEL_DRILL),
        once(2, 5, &DANIEL_MANGOLDS),
        once(2, 3, &DANIEL_QUARTER),
        once(3, 4, &REPORT_THREE_LEVELS),
        once(3, 2, &YATES_TWO_OF_THREE),
        once(3, 3, &YATES_FIRST_REPLICATION),
        once(3, 3, &YATES_BOTH_REPLICATIONS),
        once(2, 2, &RULES_TWO_FACTORS),
        once(3, 1, &RULES_THREE_LEVELS),
        once(2, 3, &RULES_BLOCKS),
        once(2, 1, &RULES_ONE_FACTOR),
        repeated(2, 3, 4, &YATES_POTATOES, &POTATO_PLOTS),
        repeated(2, 3, 4, &YATES_SUGAR_BEET, &SUGAR_BEET_SINGLE),
        repeated(3, 3, 2, &YATES_BOTH_REPLICATIONS, &BEET_PLOTS),
        repeated(2, 2, 4, &DANIEL_BUDS_SUMS, &DANIEL_BUDS),
    ]
}
