//! The limits, each as its number, since the definitions name the constants.

/// The name of a constant, its value, and what that has to be.
type Limit = (&'static str, u64, u64);

const LIMITS: &[Limit] = &[
    (
        "MOST_MICRO",
        book_text::MOST_MICRO as u64,
        1_000_000_000_000,
    ),
    ("MOST_WHOLE", book_text::MOST_WHOLE as u64, 1 << 40),
    ("MOST_NUMBER_BYTES", book_text::MOST_NUMBER_BYTES as u64, 30),
    ("MOST_BYTES", book_files::MOST_BYTES as u64, 268_435_456),
    ("MOST_NODES", book_design::MOST_NODES as u64, 1_048_576),
    ("MOST_PINS", book_design::MOST_PINS as u64, 16_777_216),
    ("MOST_SUBROWS", book_design::MOST_SUBROWS as u64, 65_536),
    ("MOST_SITES", book_design::MOST_SITES as u64, 16_777_216),
    (
        "MOST_NET_WEIGHT",
        book_design::MOST_NET_WEIGHT as u64,
        65_535,
    ),
    ("ROWS_END", book_design::ROWS_END as u64, 1_000_000_000_000),
    ("NET_WEIGHT", net_model::NET_WEIGHT as u64, 840),
    ("MOST_CLIQUE", net_model::MOST_CLIQUE as u64, 16),
    ("MOST_TERMS", net_model::MOST_TERMS as u64, 16_777_216),
    ("MOST_WEIGHT", net_model::MOST_WEIGHT as u64, 1 << 40),
    ("MOST_POINTS", pad_reach::MOST_POINTS as u64, 2_097_152),
    ("MOST_POINTS", relax_system::MOST_POINTS as u64, 2_097_152),
    (
        "MOST_COORDINATE",
        relax_system::MOST_COORDINATE as u64,
        2_000_000_000_000,
    ),
    ("MOST_WEIGHT", relax_system::MOST_WEIGHT as u64, 1 << 40),
    ("MOST_SHIFT", relax_system::MOST_SHIFT as u64, 20),
    ("MARKS", relax_table::MARKS as u64, 64),
    ("MOST_PASSES", relax_table::MOST_PASSES as u64, 64),
    ("MOST_SEATS", relax_crew::MOST_SEATS as u64, 64),
    ("MOST_LEVELS", level_run::MOST_LEVELS as u64, 12),
    ("MOST_PASSES", level_run::MOST_PASSES as u64, 8),
    ("MOST_ROUNDS", level_run::MOST_ROUNDS as u64, 26),
    ("USUAL_LEVELS", proud_words::USUAL_LEVELS as u64, 4),
    ("USUAL_PASSES", proud_words::USUAL_PASSES as u64, 2),
    ("USUAL_SEATS", proud_words::USUAL_SEATS as u64, 4),
    ("MOST_SIDE", grid_design::MOST_SIDE as u64, 64),
    ("CELL_WIDTH", grid_design::CELL_WIDTH as u64, 2),
    ("ROW_HEIGHT", grid_design::ROW_HEIGHT as u64, 10),
    ("COLUMN_SITES", grid_design::COLUMN_SITES as u64, 4),
    (
        "MULTIPLIER",
        grid_design::MULTIPLIER as u64,
        6_364_136_223_846_793_005,
    ),
    (
        "INCREMENT",
        grid_design::INCREMENT as u64,
        1_442_695_040_888_963_407,
    ),
    ("SPREAD", grid_design::SPREAD as u64, 1 << 33),
    ("WEIGHTS", grid_design::WEIGHTS as u64, 4),
];

#[test]
fn limits_are_those_of_the_rules(rt: HostRuntime) {
    for (name, is, due) in LIMITS {
        assert_eq!(rt; is, due, "{name}");
    }
}
