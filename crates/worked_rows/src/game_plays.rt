//! Games, players, their variables, and conditions: logs that are played.

pub const GAME_PLAYS: &str = "
=== score condition
--- play
@ config/config.yaml
#config_version=6
machine:
  min_balls: 0
game:
switches:
  s_start:
    number: 1
    debounce: quick
    tags: start
  s_x:
    number: 2
    debounce: quick
variable_player:
  s_x_active:
    score: 500
event_player:
  player_score{current_player.score>=1000}: big
--- log
0 s_start 1
100 s_x 1
110 s_x 0
120 s_x 1
200
=> Yes
0 machine switch s_start active
0 machine event s_start_active
0 machine event sw_start
0 machine event game_will_start
0 machine event game_starting
0 machine event player_added
0 machine event game_started
0 machine event player_turn_will_start
0 machine event player_turn_starting
0 machine event player_turn_started
0 machine event ball_will_start
0 machine event ball_starting
0 machine event ball_started
100 machine switch s_x active
100 machine event s_x_active
100 machine player 1 score 500
100 machine event player_score
110 machine switch s_x inactive
110 machine event s_x_inactive
120 machine switch s_x active
120 machine event s_x_active
120 machine player 1 score 1000
120 machine event player_score
120 machine event big

=== second player
--- play
@ config/config.yaml
#config_version=6
machine:
  min_balls: 0
game:
switches:
  s_start:
    number: 1
    debounce: quick
    tags: start
  s_x:
    number: 2
    debounce: quick
variable_player:
  s_x_active:
    score: 500
event_player:
  player_score{current_player.score>=1000}: big
--- log
0 s_start 1
10 s_start 0
20 s_start 1
30
=> Yes
0 machine switch s_start active
0 machine event s_start_active
0 machine event sw_start
0 machine event game_will_start
0 machine event game_starting
0 machine event player_added
0 machine event game_started
0 machine event player_turn_will_start
0 machine event player_turn_starting
0 machine event player_turn_started
0 machine event ball_will_start
0 machine event ball_starting
0 machine event ball_started
10 machine switch s_start inactive
10 machine event s_start_inactive
20 machine switch s_start active
20 machine event s_start_active
20 machine event sw_start
20 machine event player_added

=== no player before game
--- play
@ config/config.yaml
#config_version=6
machine:
  min_balls: 0
game:
switches:
  s_start:
    number: 1
    debounce: quick
    tags: start
  s_x:
    number: 2
    debounce: quick
variable_player:
  s_x_active:
    score: 500
event_player:
  player_score{current_player.score>=1000}: big
--- log
0 s_x 1
10
=> Yes
0 machine switch s_x active
0 machine event s_x_active

=== condition without a player
Not even that a variable is 0 holds before the game.
--- play
@ config/config.yaml
#config_version=6
machine:
  min_balls: 0
game:
switches:
  s_start:
    number: 1
    debounce: quick
    tags: start
  s_x:
    number: 2
    debounce: quick
event_player:
  s_x_active{current_player.score==0}: zero
--- log
0 s_x 1
10
=> Yes
0 machine switch s_x active
0 machine event s_x_active

=== no room for a player
--- play
@ config/config.yaml
#config_version=6
machine:
  min_balls: 0
game:
  max_players: 1
switches:
  s_start:
    number: 1
    debounce: quick
    tags: start
  s_x:
    number: 2
    debounce: quick
--- log
0 s_start 1
10 s_start 0
20 s_start 1
30
=> Yes
0 machine switch s_start active
0 machine event s_start_active
0 machine event sw_start
0 machine event game_will_start
0 machine event game_starting
0 machine event player_added
0 machine event game_started
0 machine event player_turn_will_start
0 machine event player_turn_starting
0 machine event player_turn_started
0 machine event ball_will_start
0 machine event ball_starting
0 machine event ball_started
10 machine switch s_start inactive
10 machine event s_start_inactive
20 machine switch s_start active
20 machine event s_start_active
20 machine event sw_start

=== too few balls
No ball is counted, and by default a game asks for one.
--- play
@ config/config.yaml
#config_version=6
game:
switches:
  s_start:
    number: 1
    debounce: quick
    tags: start
  s_x:
    number: 2
    debounce: quick
--- log
0 s_start 1
10
=> Yes
0 machine switch s_start active
0 machine event s_start_active
0 machine event sw_start

=== start button without a game
--- play
@ config/config.yaml
#config_version=6
switches:
  s_start:
    number: 1
    debounce: quick
    tags: start
  s_x:
    number: 2
    debounce: quick
--- log
0 s_start 1
10
=> Yes
0 machine switch s_start active
0 machine event s_start_active
0 machine event sw_start

=== value that stays
--- play
@ config/config.yaml
#config_version=6
machine:
  min_balls: 0
game:
switches:
  s_start:
    number: 1
    debounce: quick
    tags: start
  s_x:
    number: 2
    debounce: quick
variable_player:
  s_x_active:
    a: {int: 5, action: set}
    b: 0
--- log
0 s_start 1
100 s_x 1
110 s_x 0
120 s_x 1
200
=> Yes
0 machine switch s_start active
0 machine event s_start_active
0 machine event sw_start
0 machine event game_will_start
0 machine event game_starting
0 machine event player_added
0 machine event game_started
0 machine event player_turn_will_start
0 machine event player_turn_starting
0 machine event player_turn_started
0 machine event ball_will_start
0 machine event ball_starting
0 machine event ball_started
100 machine switch s_x active
100 machine event s_x_active
100 machine player 1 a 5
100 machine event player_a
110 machine switch s_x inactive
110 machine event s_x_inactive
120 machine switch s_x active
120 machine event s_x_active

=== condition at its turn
The handler of the mode comes first, so the one of the machine finds what it has changed. The one that
is written before the change does not.
--- play
@ config/config.yaml
#config_version=6
machine:
  min_balls: 0
game:
modes: m
switches:
  s_start:
    number: 1
    debounce: quick
    tags: start
  s_x:
    number: 2
    debounce: quick
  s_go:
    number: 3
    debounce: quick
event_player:
  s_x_active{current_player.score >= 10}: late
  s_go_active{current_player.a == 1}: early
variable_player:
  s_go_active:
    a: 1
@ modes/m/config/m.yaml
#config_version=6
mode:
  game_mode: no
  start_events: s_go_active
variable_player:
  s_x_active:
    score: 10
--- log
0 s_start 1
100 s_go 1
200 s_x 1
300
=> Yes
0 machine switch s_start active
0 machine event s_start_active
0 machine event sw_start
0 machine event game_will_start
0 machine event game_starting
0 machine event player_added
0 machine event game_started
0 machine event player_turn_will_start
0 machine event player_turn_starting
0 machine event player_turn_started
0 machine event ball_will_start
0 machine event ball_starting
0 machine event ball_started
100 machine switch s_go active
100 machine event s_go_active
100 machine player 1 a 1
100 machine event mode_m_will_start
100 machine event player_a
100 machine event mode_m_starting
100 machine event mode_m_started
200 machine switch s_x active
200 machine event s_x_active
200 m player 1 score 10
200 m event player_score
200 machine event late

=== mode of the game
It starts only in a game.
--- play
@ config/config.yaml
#config_version=6
machine:
  min_balls: 0
game:
modes: m
switches:
  s_start:
    number: 1
    debounce: quick
    tags: start
  s_x:
    number: 2
    debounce: quick
@ modes/m/config/m.yaml
#config_version=6
mode:
  start_events: s_x_active
--- log
0 s_x 1
10 s_x 0
20 s_start 1
30 s_x 1
40
=> Yes
0 machine switch s_x active
0 machine event s_x_active
10 machine switch s_x inactive
10 machine event s_x_inactive
20 machine switch s_start active
20 machine event s_start_active
20 machine event sw_start
20 machine event game_will_start
20 machine event game_starting
20 machine event player_added
20 machine event game_started
20 machine event player_turn_will_start
20 machine event player_turn_starting
20 machine event player_turn_started
20 machine event ball_will_start
20 machine event ball_starting
20 machine event ball_started
30 machine switch s_x active
30 machine event s_x_active
30 machine event mode_m_will_start
30 machine event mode_m_starting
30 machine event mode_m_started

=== conditions in lists and steps
--- play
@ config/config.yaml
#config_version=6
machine:
  min_balls: 0
game:
switches:
  s_start:
    number: 1
    debounce: quick
    tags: start
  s_x:
    number: 2
    debounce: quick
counters:
  c:
    count_events: s_x_active{current_player.ball == 1}, s_x_active{current_player.ball == 2}
sequences:
  q:
    events:
      - s_x_active{current_player.number == 2}
      - s_x_active
accruals:
  k:
    events:
      - s_x_active{current_player.number == 1}
      - s_x_active{current_player.number != 1}
--- log
0 s_start 1
100 s_x 1
200
=> Yes
0 machine switch s_start active
0 machine event s_start_active
0 machine event sw_start
0 machine event game_will_start
0 machine event game_starting
0 machine event player_added
0 machine event game_started
0 machine event player_turn_will_start
0 machine event player_turn_starting
0 machine event player_turn_started
0 machine event ball_will_start
0 machine event ball_starting
0 machine event ball_started
100 machine switch s_x active
100 machine event s_x_active
100 machine event logicblock_c_updated
100 machine event logicblock_c_hit
100 machine event logicblock_k_updated
100 machine event logicblock_k_hit

=== block of each player
What persists is kept for the current player, and does nothing before the game.
--- play
@ config/config.yaml
#config_version=6
machine:
  min_balls: 0
game:
switches:
  s_start:
    number: 1
    debounce: quick
    tags: start
  s_x:
    number: 2
    debounce: quick
counters:
  c:
    count_events: s_x_active
    persist_state: yes
    count_complete_value: 2
--- log
0 s_x 1
10 s_x 0
20 s_start 1
30 s_x 1
40 s_x 0
50 s_x 1
60
=> Yes
0 machine switch s_x active
0 machine event s_x_active
10 machine switch s_x inactive
10 machine event s_x_inactive
20 machine switch s_start active
20 machine event s_start_active
20 machine event sw_start
20 machine event game_will_start
20 machine event game_starting
20 machine event player_added
20 machine event game_started
20 machine event player_turn_will_start
20 machine event player_turn_starting
20 machine event player_turn_started
20 machine event ball_will_start
20 machine event ball_starting
20 machine event ball_started
30 machine switch s_x active
30 machine event s_x_active
30 machine event logicblock_c_updated
30 machine event logicblock_c_hit
40 machine switch s_x inactive
40 machine event s_x_inactive
50 machine switch s_x active
50 machine event s_x_active
50 machine event logicblock_c_updated
50 machine event logicblock_c_hit
50 machine event logicblock_c_complete
";
