//! The sections `machine`, `game` and `variable_player` of bundles, by the names of their settings.

use crate::pen::Pen;
use mpf_config::{
    Content, GAME_NAME, KeyedValues, MACHINE_SECTION_NAME, Section, as_game, as_variable_item,
    as_variable_player, min_balls,
};
use mpf_tables::tables::VARIABLE_PLAYER_NAME;

/// Texts, and what is read of them. The section `machine` is shown by how many balls a game needs, and `game` by
/// how many balls each player has and how many players there may be; an entry of `variable_player` by its event,
/// and then what is done with each variable.
pub(crate) const GAMES: &str = "\
@¶machine:¶  min_balls: 3¶game:¶  balls_per_game: 5¶  max_players: 2¶ => machine¶ 3¶game¶ 5 2¶
@¶game:¶machine:¶ => game¶ 3 4¶machine¶ 1¶
@¶machine: {min_balls: 0}¶game: {max_players: 1, balls_per_game: 99}¶ => machine¶ 0¶game¶ 99 1¶
@¶game: {max_players: 4, balls_per_game: 1}¶machine: {min_balls: 99}¶ => game¶ 1 4¶machine¶ 99¶
@¶variable_player:¶  go:¶    score: 500¶    bonus: {int: -3, action: set}¶  halt{current_player.ball>=2}: {score: {int: 1000000000}, a: {action: add, int: 0}}¶  x:¶ => variable_player¶ go@3; score@4; Add 500; bonus@5; Set -3;¶ halt{ball GreaterOrEqual 2}@6; score@6; Add 1000000000; a@6; Add 0;¶ x@7;¶
@¶modes: m, n¶variable_player:¶  x: {a: 1}¶@m¶variable_player:¶  x: {a: 2}¶@n¶variable_player:¶  x: {a: {int: 3, action: set}}¶ => modes¶ m@2 n@2¶variable_player¶ x@4; a@4; Add 1;¶m: 100 true true;;;¶variable_player¶ x@3; a@3; Add 2;¶n: 100 true true;;;¶variable_player¶ x@3; a@3; Set 3;¶
@¶modes: m¶@m¶game:¶ => error 4 UnknownSection modes/m/config/m.yaml 2 game¶
@¶modes: m¶@m¶machine:¶ => error 4 UnknownSection modes/m/config/m.yaml 2 machine¶
@¶game:¶  max_players: 5¶ => error 6 BadValue config/config.yaml 3 max_players¶
@¶machine:¶  min_balls: 100¶ => error 6 BadValue config/config.yaml 3 min_balls¶
@¶variable_player:¶  x:¶    a: {action: set}¶ => error 7 Missing config/config.yaml 4 int¶
@¶variable_player:¶  x:¶    a: {int: 1, action: reset}¶ => error 6 BadValue config/config.yaml 4 action¶
@¶modes: m¶@m¶variable_player:¶  x: {«1025 a№: 1, »}¶ => error 9 Limit modes/m/config/m.yaml 3 x¶
";

fn show_items(pen: &mut Pen, items: &[KeyedValues]) {
    for keyed in items {
        let item = as_variable_item(keyed);
        pen.entry(item.variable);
        pen.shown(item.action);
        pen.also(item.number);
        pen.put(";");
    }
}

/// Adds the variable players of a section.
pub(crate) fn show_variables(pen: &mut Pen, section: &Section) {
    for entry in section.players_of(VARIABLE_PLAYER_NAME) {
        let player = as_variable_player(entry);
        pen.put(" ");
        pen.handled(player.event);
        pen.put(";");
        show_items(pen, player.items);
        pen.put("\n");
    }
}

/// Adds what a section of the machine text says of the game, or of the machine.
pub(crate) fn show_game(pen: &mut Pen, section: &Section, sections: &[Section]) {
    if section.name.as_slice() == MACHINE_SECTION_NAME {
        pen.also(min_balls(sections));
        return pen.put("\n");
    }
    let Content::Entry(entry) = &section.content else {
        return;
    };
    if section.name.as_slice() == GAME_NAME {
        let game = as_game(entry);
        pen.also(game.balls_per_game);
        pen.also(game.max_players);
        pen.put("\n");
    }
}
