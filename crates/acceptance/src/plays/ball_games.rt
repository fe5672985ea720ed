//! Whole games by switch changes alone, beside a plain model of whose turn it is and who has scored what.

use crate::asserts::assert_text;
use crate::plays::row::OF_TEXTS;
use std::alloc::Global;
use worked_rows::{Pen, Row, answered};

const MACHINE: &str = "\
@ config/config.yaml
#config_version=6
game:
  balls_per_game: 3
  max_players: 4
switches:
  s_b1: {number: 1, debounce: quick}
  s_b2: {number: 2, debounce: quick}
  s_b3: {number: 3, debounce: quick}
  s_start: {number: 4, debounce: quick, tags: start}
  s_plunger: {number: 5, debounce: quick}
  s_pf: {number: 6, debounce: quick, tags: playfield_active}
  s_hit: {number: 7, debounce: quick}
coils:
  c_trough: {number: 1}
  c_plunger: {number: 2}
ball_devices:
  trough:
    ball_switches: s_b1, s_b2, s_b3
    eject_coil: c_trough
    tags: trough, home, drain
    eject_targets: plunger
  plunger:
    ball_switches: s_plunger
    eject_coil: c_plunger
variable_player:
  s_hit_active:
    score: 100
";

/// The log of a game, and the lines on players that it should lead to.
#[derive(Drop)]
struct Story {
    log: Pen,
    wanted: Pen,
    moment: u32,
    state: u64,
}

impl Story {
    /// At moment 1,000 three balls lie in the trough.
    fn new(alloc: Global) -> Story {
        let mut log = Pen::new(alloc);
        log.put("0 s_b1 1\n0 s_b2 1\n0 s_b3 1\n");
        Story {
            log,
            wanted: Pen::new(alloc),
            moment: 1_000,
            state: 1,
        }
    }

    /// The raw level of a switch changes so many milliseconds later. The text is the switch and its level.
    fn change(&mut self, after: u32, change: &str) {
        self.moment = self.moment.saturating_add(after);
        self.log.value(self.moment);
        self.log.put(change);
    }

    /// The current player hits a target.
    fn hit(&mut self) {
        self.change(50, " s_hit 1\n");
        self.change(50, " s_hit 0\n");
    }

    /// The start button is pressed and let go.
    fn start(&mut self) {
        self.change(50, " s_start 1\n");
        self.change(50, " s_start 0\n");
    }

    /// A line that should come, with two numbers between these texts.
    fn want(&mut self, moment: u32, texts: (&str, &str), numbers: (u32, u32)) {
        self.wanted.value(moment);
        self.wanted.put(texts.0);
        self.wanted.value(numbers.0);
        self.wanted.put(texts.1);
        self.wanted.value(numbers.1);
        self.wanted.put("\n");
    }

    /// The current player hits a target, and scores.
    fn score(&mut self, player: u32, score: &mut u32) {
        *score = score.saturating_add(100);
        self.hit();
        let moment = self.moment.saturating_sub(50);
        self.want(moment, (" machine player ", " score "), (player, *score));
    }

    /// A ball goes from the trough over the plunger onto the playfield, hits targets, and drains. Until it counts as
    /// drained, the player still scores.
    fn play_ball(&mut self, player: u32, score: &mut u32) {
        self.change(700, " s_b1 0\n");
        self.change(600, " s_plunger 1\n");
        self.change(700, " s_plunger 0\n");
        self.change(600, " s_pf 1\n");
        self.change(10, " s_pf 0\n");
        for _ in 0..draw(&mut self.state, 4) {
            self.score(player, score);
        }
        self.change(10, " s_b1 1\n");
        self.score(player, score);
        self.moment = self.moment.saturating_add(400);
    }

    /// Each player in turn has a ball. Nobody joins any more.
    fn play_round(&mut self, scores: &mut [u32; 4]) {
        let mut player = 0u32;
        for score in scores.iter_mut() {
            player = player.saturating_add(1);
            self.start();
            self.play_ball(player, score);
        }
    }

    /// The game is over, and nobody scores any more.
    fn end(&mut self, scores: &[u32; 4]) {
        let moment = self.moment;
        let mut player = 0u32;
        for score in scores.iter() {
            player = player.saturating_add(1);
            self.want(moment, (" machine final ", " "), (player, *score));
        }
        self.hit();
    }
}

/// A number below the limit. Numbers look random, and are the same in each run.
fn draw(state: &mut u64, limit: u32) -> u32 {
    *state = state
        .wrapping_mul(6_364_136_223_846_793_005)
        .wrapping_add(1_442_695_040_888_963_407);
    let number = (*state >> 33) as u32;
    number.checked_rem(limit).unwrap_or(0)
}

/// The lines of a play that tell of players' values and of final scores.
fn on_players(alloc: Global, out: &str) -> Pen {
    let mut lines = Pen::new(alloc);
    for line in out.lines() {
        if line.contains(" machine player ") || line.contains(" machine final ") {
            lines.put(line);
            lines.put("\n");
        }
    }
    lines
}

/// How often a text comes in another.
fn count(out: &str, what: &str) -> usize {
    out.split(what).count().saturating_sub(1)
}

/// Four players have three balls each, in turns. Nobody scores before the game, nor after it; a fifth player does not
/// join, nor anybody at a later ball.
fn story_of(alloc: Global) -> Story {
    let mut story = Story::new(alloc);
    story.hit();
    for _ in 0..5u32 {
        story.start();
    }
    let mut scores = [0u32; 4];
    for _ in 0..3u32 {
        story.play_round(&mut scores);
    }
    story.end(&scores);
    story
}

/// What is printed in a play on `MACHINE`.
fn played(alloc: Global, log: &str) -> Pen {
    let row = Row {
        call: "play",
        bundle: MACHINE,
        other: log,
        board: "",
        writer: "",
        wanted: "",
    };
    answered(alloc, &OF_TEXTS, &row)
}

#[test]
fn four_players_have_three_balls_each(rt: HostRuntime) {
    let mut story = story_of(rt.alloc());
    story.wanted.put("12 balls\n");
    let out = played(rt.alloc(), story.log.end());
    let mut found = on_players(rt.alloc(), out.end());
    found.value(count(out.end(), " machine event ball_started\n"));
    found.put(" balls\n");
    assert_text(&rt, &found, story.wanted.end());
}
