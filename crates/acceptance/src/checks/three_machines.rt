//! Three machines in one bundle: a mode with a timer, a game with two ball devices, and a counter. It is checked and
//! verified, and played in `plays`.

use crate::checks::row::assert_rows;
use std::test::Fail;
use worked_rows::Pen;

// The start button begins a game. On the playfield a ball may be confirmed, and the plunger may eject the next one.
const SWITCHES: &str = "\
switch s_b1 2
switch s_b2 2
switch s_b3 2
switch s_b4 2
switch s_b5 2
switch s_start 16
switch s_plunger 2
switch s_pf 8
switch s_go 8
switch s_stop 4
switch s_left 5
";

// The end of a ball stops the mode, too: so `ball_ending` and what leads to it weigh 2 more than without the mode. The
// bound is that of a ball that drains: its line, `ball_enter`, `ball_drain`, and an eject.
const EVENTS: &str = "\
event sw_start 14
event game_will_start 13
event game_starting 12
event player_added 1
event game_started 10
event player_turn_will_start 9
event player_turn_starting 8
event player_turn_started 7
event ball_will_start 6
event ball_starting 5
event ball_started 1
event ball_drain 18
event ball_will_end 17
event ball_ending 16
event ball_ended 13
event player_turn_will_end 12
event player_turn_ending 11
event player_turn_ended 10
event game_will_end 7
event game_ending 6
event game_ended 5
event s_b1_active 1
event s_b1_inactive 1
event s_b2_active 1
event s_b2_inactive 1
event s_b3_active 1
event s_b3_inactive 1
event s_b4_active 1
event s_b4_inactive 1
event s_b5_active 1
event s_b5_inactive 1
event s_start_active 1
event s_start_inactive 1
event s_plunger_active 1
event s_plunger_inactive 1
event s_pf_active 1
event sw_playfield_active 1
event s_pf_inactive 1
event s_go_active 7
event s_go_inactive 1
event s_stop_active 3
event s_stop_inactive 1
event s_left_active 4
event s_left_inactive 1
event balldevice_trough_ball_enter 1
event balldevice_trough_ball_eject_attempt 1
event balldevice_trough_ejecting_ball 1
event balldevice_trough_ball_eject_success 1
event balldevice_trough_ball_eject_failed 1
event balldevice_plunger_ball_enter 1
event balldevice_plunger_ball_eject_attempt 1
event balldevice_plunger_ejecting_ball 1
event balldevice_plunger_ball_eject_success 1
event balldevice_plunger_ball_eject_failed 1
event logicblock_c_updated 1
event logicblock_c_hit 1
event logicblock_c_complete 1
event mode_m_will_start 6
event mode_m_starting 5
event mode_m_started 4
event mode_m_stopping 2
event mode_m_stopped 1
event timer_t_started 1
event timer_t_stopped 1
event timer_t_paused 1
event timer_t_tick 1
event timer_t_complete 1
";

#[test]
fn three_machines_are_checked(rt: HostRuntime) {
    let mut rows = Pen::new(rt.alloc());
    rows.put(
        "\n=== check\n--- check\n(three machines)\n=> Yes\nyes\npinball-certificate 2\nbound 23\n",
    );
    rows.put(SWITCHES);
    rows.put(EVENTS);
    rows.put(
        "\n=== verify\n--- verify\n(three machines)\n--- certificate\npinball-certificate 2\nbound 23\n",
    );
    rows.put(SWITCHES);
    rows.put(EVENTS);
    rows.put("=> Yes\nyes\nbound 23\n");
    rows.put(
        "\n=== version 1\n--- verify\n(three machines)\n--- certificate\npinball-certificate 1\nbound 23\n",
    );
    rows.put(EVENTS);
    rows.put("=> Yes\nyes\nbound 23\n");
    assert_rows(&rt, rows.end());
}
