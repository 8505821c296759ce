// Definitions and laws of hot sums.

#![tactic(auto)]

mod laws;
mod limits;

pub use laws::{
    alone, certificates, cold_is_judged, drawing_is_sole, figures_fit, floor_holds, floor_is_sure,
    floor_never_falls, lists_turn, mirrored, opening_loss, options_step, rule_keeps, rule_total,
    scaffolds_meet, stops_are_values, sum_bounds, textbook_agrees, textbook_sums_agree,
    walls_are_drawn, walls_join, walls_slope, worked_figures,
};
pub use limits::{
    GREATEST_HEIGHT, OPTION_LIMIT, SCORE_LIMIT, UNIT, greatest_score, height_limit, most_options,
    point_units,
};
