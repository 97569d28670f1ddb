//! The rows: linear programs, and what is expected of their multipliers and weights.
//!
//! A `side` has a low and a high end, with a minus for an open one. A `column` has a cost and entries, each with its row
//! before a colon. `mult` and `weights` are expected within 1, in units of 1/65,536, and `least` and `most` are ends
//! between which the multipliers must lie. The values are worked out by hand, by complementary slackness.

/// The rows, which stand apart by an empty line.
pub const ROWS: &str = "# No side and no column.
mult
weights

# No side, and a column without entries.
column 5
mult
weights 0

# At most 1, and no column.
side - 1
weights
least -4398046511104
most 0

# The cheaper of two columns pays.
side 1 1
column 2 0:1
column 3 0:1
mult 131072
weights 65536 0

# At least 1.
side 1 -
column 2 0:1
mult 131072
weights 65536

# A column that pays, and at most 3 of it: 5 for two units.
side - 3
column -5 0:2
mult -163840
weights 98304

# Three pairs cover three rows by halves.
side 1 1
side 1 1
side 1 1
column 2 0:1 1:1
column 2 1:1 2:1
column 2 0:1 2:1
mult 65536 65536 65536
weights 32768 32768 32768

# Set partitioning of six rows: two such triangles, of costs 6, 8, 10 and 7, 9, 12, and dearer columns. The multipliers
# are 4, 2, 6 and 5, 2, 7.
side 1 1
side 1 1
side 1 1
side 1 1
side 1 1
side 1 1
column 50 0:1
column 50 1:1
column 6 0:1 1:1
column 30 0:1 1:1 2:1 3:1 4:1 5:1
column 8 1:1 2:1
column 10 0:1 2:1
column 20 0:1 3:1
column 7 3:1 4:1
column 50 3:1
column 9 4:1 5:1
column 14 2:1 5:1
column 12 3:1 5:1
mult 262144 131072 393216 327680 131072 458752
weights 0 0 32768 0 32768 32768 0 32768 0 32768 0 32768

# A side that nothing violates at first: the dear column keeps it, and the cheap one pays for it.
side 1 1
side - 0
column 2 0:1 1:1
column 7 0:1
mult 458752 -327680
weights 0 65536

# The first row has no column: its multiplier lies within the greatest penalty, 67,108,864.
side 1 1
side 1 1
column 3 1:1
least 0 196607
most 4398046511104 196609
weights 65536

# One column cannot be 1 and 2.
side 1 1
side 2 2
column 4 0:1 1:1
least -4398046511104 -4398046511104
most 4398046511104 4398046511104

# Columns that are all equal, so that one of them alone has a weight.
side 1 1
side 2 2
column 3 0:1 1:1
column 3 0:1 1:1
column 3 0:1 1:1
column 3 0:1 1:1
column 3 0:1 1:1
column 1 1:1
mult 131072 65536

# Entries of the same row add up.
side 6 6
column 6 0:1 0:2
mult 131072
weights 131072

# Entries and costs beyond the screen, and rows out of range.
side 1 1
column 1 0:1048577
column 1 0:-1048577
column 67108865 0:1
column -67108865 0:1
column 1 1:1
column 1 0:1 4294967295:0
column 3 0:1
mult 196608
weights 0 0 0 0 0 0 65536

# The last basis is the first column. The marker names the row, and the new column is cheaper.
side 1 1
column 3 0:1
column 0 0:0
column 2 0:1
mult 131072
weights 0 0 65536

# A last basis that is best: its columns keep their weights.
side 1 1
side 1 1
column 2 0:1
column 3 1:1
column 0 0:0 1:0
column 6 0:1 1:1
mult 131072 196608
weights 65536 65536 0 0

# No turn is left: all that is known are signs and ranges.
side 1 -
side - 1
pivots 0
column 2 0:1
column -2 1:1
least 0 -4398046511104
most 4398046511104 0

# Ends, costs and entries at the ends of their range.
side -9223372036854775808 9223372036854775807
side 9223372036854775807 -9223372036854775808
side - -9223372036854775808
side 9223372036854775807 -
column -9223372036854775808 0:-9223372036854775808 4294967295:1
column 9223372036854775807 0:9223372036854775807
column -67108864 0:1048576 1:-1048576 2:1048576 3:-1048576 1:1
column 67108864 0:-1048576 1:1048576 2:1048576 3:1048576
column 1 1:1048575 0:-1 2:-1 3:7
least -281474976710656 -281474976710656 -281474976710656 0
most 281474976710656 281474976710656 0 281474976710656
";
