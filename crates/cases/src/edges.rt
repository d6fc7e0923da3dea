// The edges of the three exchanges: those that are proved, and those that are only run.
use crate::table::check_rows;
use rules::beta::Beta;
use rules::vienna::Vienna;
use rules::zagreb::Zagreb;
use std::test::Fail;

#[test]
fn vienna_edges(rt: HostRuntime) -> Result<(), Fail> {
    check_rows(
        &rt,
        &Vienna,
        &[
            ((1, 0, 1, 300), (100_000, 100_750, 300, 300), true),
            ((1, 0, 1, 300), (100_000, 100_751, 300, 300), false),
            ((5, 1, 1, 300), (40_000, 41_500, 300, 300), true),
            ((5, 1, 1, 300), (40_000, 41_501, 300, 300), false),
            // at five euro 1 per cent would be 500; class 2 stagnating has 1000
            ((2, 1, 1, 300), (50_000, 51_000, 300, 300), true),
            ((2, 1, 1, 300), (50_000, 51_001, 300, 300), false),
            // the limit is not read
            ((1, 0, 10_000, 300), (100_000, 100_751, 300, 300), false),
            // each size by itself
            ((1, 0, 1, 300), (100_000, 100_750, 299, 300), false),
            ((1, 0, 1, 300), (100_000, 100_750, 300, 299), false),
        ],
    )
}

// amounts in ten-thousandths of a euro
const EURO_10_000: u32 = 100_000_000;

const EURO_10_100: u32 = 101_000_000;

#[test]
fn zagreb_edges(rt: HostRuntime) -> Result<(), Fail> {
    check_rows(
        &rt,
        &Zagreb,
        &[
            (
                (1, 0, 100, EURO_10_000),
                (1_000_000, 1_010_000, 100, 100),
                true,
            ),
            (
                (1, 0, 100, EURO_10_000),
                (1_000_000, 1_010_000, 99, 100),
                false,
            ),
            (
                (1, 0, 100, EURO_10_000),
                (1_000_000, 1_010_001, 100, 100),
                false,
            ),
            // a lower ask with the same size is worth less
            (
                (1, 0, 100, EURO_10_100),
                (1_000_000, 1_010_000, 101, 100),
                true,
            ),
            (
                (1, 0, 100, EURO_10_100),
                (1_000_000, 1_004_000, 101, 100),
                false,
            ),
            // class and tier are not read
            (
                (7, 2, 100, EURO_10_000),
                (1_000_000, 1_010_000, 100, 100),
                true,
            ),
        ],
    )
}

#[test]
fn beta_edges(rt: HostRuntime) -> Result<(), Fail> {
    check_rows(
        &rt,
        &Beta,
        &[
            ((1, 0, 200, 100), (9_900, 10_100, 100, 100), true),
            ((1, 0, 200, 100), (9_900, 10_101, 100, 100), false),
            ((1, 0, 200, 100), (9_900, 10_100, 100, 200), true),
            ((1, 0, 200, 100), (9_900, 10_100, 100, 201), false),
            ((1, 0, 200, 100), (9_900, 10_100, 201, 100), false),
            ((1, 0, 200, 100), (9_900, 10_100, 99, 100), false),
            ((7, 2, 200, 100), (9_900, 10_100, 200, 100), true),
        ],
    )
}
